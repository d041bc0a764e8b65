// A walk's rows logged where a snapshot is open, and rewritten. That there is room was judged before.
#![tactic(auto)]

pub mod walk;
