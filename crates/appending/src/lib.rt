// Document 02, Q-1: "One append writes one segment, or refuses, writing nothing".
#![tactic(auto)]

pub mod append;
pub mod takes;
