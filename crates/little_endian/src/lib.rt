// Numbers of 32 and 64 bits at a place of some bytes, the lowest byte first.
#![tactic(auto)]

pub mod read;
