// Calls of two walks of at most one redirect, and either kind, decided over a good table.
#![tactic(auto)]

pub mod calls;
