// A whole state, by value: its head, and the state that a call leaves.
#![tactic(auto)]

pub mod state;
