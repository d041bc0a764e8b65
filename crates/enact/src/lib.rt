// A plan carried out: rows are logged where a snapshot is open, and written. That there is room was judged before.
#![tactic(auto)]

pub mod plan;
