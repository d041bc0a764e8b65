// Rows, entries and marks printed piece by piece. A full buffer is written out before more is printed.
#![tactic(auto)]

pub mod buffer;
pub mod show;
pub mod since;
