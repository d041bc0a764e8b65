// The view of actions: `&[T]` of ena's `actions_since_snapshot` is a struct that refers to the lent log. What cuts and what reads
// stands in crate `extract`, over slices and numbers; `view` has the few functions over the struct.
#![tactic(auto)]

pub mod view;
