// The journal's entries in their bytes.
#![tactic(auto)]

pub mod entries;
