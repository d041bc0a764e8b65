// The types that every crate shares, the limits and the refusals.
// What they mean is in specs/: document 01 as definitions.
#![tactic(auto)]

pub mod call;
pub mod convert;
pub mod numbers;
pub mod refusal;
pub mod table;
