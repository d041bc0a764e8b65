// What a call that walks comes to: a plan or a refusal, and whether its entries fit the log. Near walks and long ones come to the same plans.
#![tactic(auto)]

pub mod room;
pub mod verdict;
