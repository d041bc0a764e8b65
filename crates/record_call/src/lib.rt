// A single call, carried out and written to a journal.
#![tactic(auto)]

pub mod call;
