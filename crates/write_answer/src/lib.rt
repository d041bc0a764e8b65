// An answer's numbers, written.
#![tactic(auto)]

pub mod answers;
