// Any call decided over the lent parts, a head and the mark in question: its answer and what is to be written. Nothing here writes.
#![tactic(auto)]

pub mod any;
