// What C and Rust link to replay a journal. An archive of its own, so that the one loop in it is compiled whole.
#![tactic(auto)]

pub mod calls;
