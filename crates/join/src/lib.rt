// A join, made of where its walks lead.
#![tactic(auto)]

pub mod plan;
