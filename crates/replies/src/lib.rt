// The lines of the several replies, printed over what is lent.
#![tactic(auto)]

pub mod written;
