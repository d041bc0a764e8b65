// What a call that walks from one key makes of where its walk leads, judged from the rows alone. Nothing here writes or walks.
#![tactic(auto)]

pub mod plan;
