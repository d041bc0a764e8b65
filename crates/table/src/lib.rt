// Any call over the four lent parts: the one path for all who keep a state. A call is decided in crate `decide` and written in
// crate `writes`.
#![tactic(auto)]

pub mod by_value;
pub mod call;
