// Other lengths lent, what is lent anew cleared.
#![tactic(auto)]

pub mod lengths;
