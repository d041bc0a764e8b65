// The journal that a verb names.
#![tactic(auto)]

pub mod named;
