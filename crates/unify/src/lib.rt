// The table's calls under ena's names, over a state by value: one line each over `table::by_value`.
#![tactic(auto)]

pub mod calls;
