// What the verb replay prints.
#![tactic(auto)]

pub mod answer;
