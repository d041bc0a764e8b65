// An entry of the journal carried out.
#![tactic(auto)]

pub mod one;
