// What a rollback judges, and the head that it leaves: from ena's `rollback_to`. All entries are read before the first is undone, so that a refusal
// leaves the rows alone.
#![tactic(auto)]

pub mod rollback;
pub mod undo;
