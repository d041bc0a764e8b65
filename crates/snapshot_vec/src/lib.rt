// Rows written and logged, and entries undone: from ena's `snapshot_vec`.
#![tactic(auto)]

pub mod update;
