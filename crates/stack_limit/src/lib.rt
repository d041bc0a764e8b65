// How much stack the program has.
#![tactic(auto)]

pub mod limit;
