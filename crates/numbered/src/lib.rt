// A call on a table whose state is lent as numbers.
#![tactic(auto)]

pub mod going;
pub mod one;
