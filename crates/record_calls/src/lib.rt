// A list of calls read from a file or standard input, recorded and answered.
#![tactic(auto)]

pub mod calls;
mod input;
