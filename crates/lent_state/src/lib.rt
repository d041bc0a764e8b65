// A state by value, out of the numbers that are lent for it.
#![tactic(auto)]

pub mod state;
