// Every command but a call, carried out on the lent memory.
#![tactic(auto)]

pub mod other;
