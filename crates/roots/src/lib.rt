// Walks to a root: traced without a write, and compressed by the pair of ena's `unify`.
#![tactic(auto)]

pub mod get;
pub mod live;
pub mod near;
pub mod path;
