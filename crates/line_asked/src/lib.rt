// What a line of a recorded list asks for.
#![tactic(auto)]

pub mod asked;
