#![tactic(auto)]

pub mod seen;
pub mod state;
