// The words of a verb, as the program is given them, and what it ends with.
#![tactic(auto)]

pub mod answer;
pub mod given;
pub mod option;
pub mod verbs;
