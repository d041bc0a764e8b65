// The input read, line by line: each is gathered part by part.
#![tactic(auto)]

pub mod read;
