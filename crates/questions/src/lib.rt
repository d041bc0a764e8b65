// Questions about a mark: the keys and the entries since, and whether there are any.
#![tactic(auto)]

pub mod calls;
