// An entry of the journal as a call on a table whose state is lent as numbers.
#![tactic(auto)]

pub mod ready;
