// A line of a recorded list answered: what it adds to the journal is on disk before its answer is printed.
#![tactic(auto)]

pub mod answer;
pub mod desk;
pub mod disk;
pub mod output;
