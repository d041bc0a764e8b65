// What a command makes of the memory that the program lends to a table: a call of the table on what is lent of each part,
// or other lengths, a row, an entry or a state, for tests.
#![tactic(auto)]

pub mod call;
pub mod change;
