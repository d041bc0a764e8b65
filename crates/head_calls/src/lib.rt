// Any of the six calls that only look at the head.
#![tactic(auto)]

pub mod calls;
