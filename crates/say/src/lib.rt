// A reply printed: which of the lines it is, and over how much of the memory.
#![tactic(auto)]

pub mod say;
