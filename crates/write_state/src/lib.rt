// The state that a call leaves, written to the numbers that the host lends.
#![tactic(auto)]

pub mod after;
