// What is decided of a call, written: the only crate that writes a table, with those that it calls.
#![tactic(auto)]

pub mod end;
pub mod long;
