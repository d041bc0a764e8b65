// A second walk, traced before the first is made: where it meets the first, it goes on to that one's root.
#![tactic(auto)]

pub mod after;
