// What the commands for tests write into the lent memory, and which other lengths are asked for.
#![tactic(auto)]

pub mod damage;
