// A row, read from the lent parts and written to them by value.
#![tactic(auto)]

pub mod rows;
