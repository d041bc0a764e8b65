// Bytes and decimal numbers put into a buffer. Nothing here writes a file.
#![tactic(auto)]

pub mod put;
