// An entry of a valid journal, read, and all of them one after the other.
#![tactic(auto)]

pub mod kinds;
pub mod read;
pub mod walk;
