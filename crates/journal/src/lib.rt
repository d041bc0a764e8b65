#![tactic(auto)]

pub mod entry;
pub mod known;
