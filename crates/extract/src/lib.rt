// The part of a log between two entries, and an entry of a slice of any length: nothing is asked of what is lent.
#![tactic(auto)]

pub mod log;
