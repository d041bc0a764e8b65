// The memory that a verb takes from the heap.
#![tactic(auto)]

pub mod memory;
