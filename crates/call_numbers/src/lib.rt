// A call as the host's four numbers.
#![tactic(auto)]

pub mod numbers;
