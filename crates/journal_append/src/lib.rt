// A segment made behind a journal's bytes, put on disk, and then answered for.
#![tactic(auto)]

pub mod bytes;
