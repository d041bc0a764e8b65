// A line's words, and a word read as a number.
#![tactic(auto)]

pub mod number;
pub mod words;
