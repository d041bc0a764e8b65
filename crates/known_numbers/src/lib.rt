// What a recorder knows of a journal, lent as four numbers, and what is tested before the journal's exported functions work.
#![tactic(auto)]

pub mod known;
pub mod tests;
