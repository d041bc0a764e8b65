// What the exported functions of the journal answer: a number of refusal and another number.
#![tactic(auto)]

pub mod results;
