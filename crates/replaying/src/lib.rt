// A journal replayed.
#![tactic(auto)]

pub mod replay;
