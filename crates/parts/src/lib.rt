// Undo entries, read from and written to the lent log. Where a number of one stands is known here.
#![tactic(auto)]

pub mod amounts;
pub mod entries;
