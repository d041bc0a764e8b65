// CALLS.md's `live` of a table, on standard output.
#![tactic(auto)]

pub mod live;
