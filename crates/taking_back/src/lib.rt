// A rollback, decided.
#![tactic(auto)]

pub mod calls;
