// The table's calls over lent numbers alone. Crate `host_c` exports them to C and what links like C.
#![tactic(auto)]

pub mod calls;
