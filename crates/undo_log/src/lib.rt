// Heads, marks and tokens: from ena's `undo_log`. Nothing here reads or writes rows and entries, nor a whole state.
#![tactic(auto)]

pub mod marks;
pub mod tokens;
