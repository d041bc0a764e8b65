// Calls that reach rows without a walk, decided over a good table: a new key, a value without a walk.
#![tactic(auto)]

pub mod calls;
