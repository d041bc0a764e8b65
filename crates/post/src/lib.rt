// A post, made of where its walk leads.
#![tactic(auto)]

pub mod plan;
