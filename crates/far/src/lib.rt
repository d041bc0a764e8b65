// Calls with a walk of two redirects or more, planned over a good table.
#![tactic(auto)]

pub mod plan;
