// What a line can ask for, and how it is made of a name's place in the table and of numbers.
#![tactic(auto)]

pub mod command;
