// What is tested before a list of calls is run: nothing of it is written.
#![tactic(auto)]

pub mod tests;
