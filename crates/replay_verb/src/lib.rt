// The verb replay, over memory that is lent for the journal and for the table.
#![tactic(auto)]

pub mod verb;
