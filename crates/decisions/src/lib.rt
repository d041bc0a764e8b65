// What is decided of a call before anything is written: its answer, and what is to be written of it.
#![tactic(auto)]

pub mod decision;
pub mod good;
pub mod room;
pub mod sorted;
pub mod todo;
