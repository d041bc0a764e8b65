// Document 02, Q-1: what is written of a call, and where.
#![tactic(auto)]

pub mod after;
pub mod before;
pub mod segment;
