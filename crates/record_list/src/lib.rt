// Document 02, Q-1: a list of calls, carried out and written to a journal.
#![tactic(auto)]

pub mod list;
