// A journal replayed into as much memory as a verb's words ask for. Nothing here reads or writes a file.
#![tactic(auto)]

mod lending;
pub mod replay;
