// How much of the rows, entries and marks is shown.
#![tactic(auto)]

pub mod head;
