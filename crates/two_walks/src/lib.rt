// What a call that walks from two keys makes of where its walks lead, judged from the rows alone. Nothing here writes or walks.
#![tactic(auto)]

pub mod plan;
