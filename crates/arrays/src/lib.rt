// The memory that the program lends to a table: how much of each part is lent, and numbers put there.
#![tactic(auto)]

pub mod lengths;
pub mod put;
pub mod reply;
