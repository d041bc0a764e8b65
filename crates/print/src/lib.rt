// The text of rows, entries, marks and states. Nothing here writes a file: the program hands over room for what is printed.
#![tactic(auto)]

pub mod print;
