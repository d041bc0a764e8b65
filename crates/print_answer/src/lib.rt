// An answer, or that a line is none, printed.
#![tactic(auto)]

pub mod answer;
