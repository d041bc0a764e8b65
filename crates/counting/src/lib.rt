// What a recorder has to know of a valid journal, worked out from its bytes.
#![tactic(auto)]

pub mod count;
pub mod known;
