// The mark that a call is about, of a state by value or as the numbers that are lent for it.
#![tactic(auto)]

pub mod marks;
