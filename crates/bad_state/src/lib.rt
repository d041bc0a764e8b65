// BAD_STATE over a head and four lengths: any four, those of the lent parts, and those of the parts that are only read.
#![tactic(auto)]

pub mod bad;
