// Calls as the host's numbers.
#![tactic(auto)]

pub mod asked;
pub mod coding;
