// Document 02, Q-1: an entry of the journal and a trailer, written as their bytes.
#![tactic(auto)]

pub mod bytes;
pub mod entry;
