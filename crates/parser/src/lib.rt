// A line read as a command. Nothing here reads a file: the program hands over a line.
#![tactic(auto)]

pub mod parse;
