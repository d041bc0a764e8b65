// What a rollback undoes, once it is judged.
#![tactic(auto)]

pub mod undo;
