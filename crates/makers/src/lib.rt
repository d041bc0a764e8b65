// Functions that make answers, each with its definition as contract.
#![tactic(auto)]

pub mod answer;
