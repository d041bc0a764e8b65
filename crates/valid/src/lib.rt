// Document 02, Q-1: which bytes are a valid journal.
#![tactic(auto)]

pub mod place;
pub mod valid;
pub mod window;
