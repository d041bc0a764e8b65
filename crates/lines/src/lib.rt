// Lines of the input: their bytes gathered, and the command that a line is.
#![tactic(auto)]

pub mod gather;
pub mod line;
