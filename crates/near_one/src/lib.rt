// A call of one walk of at most one redirect, decided.
#![tactic(auto)]

pub mod calls;
