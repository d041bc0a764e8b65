// Files read whole, and written whole or not at all.
#![tactic(auto)]

pub mod name;
pub mod read;
pub mod write;
