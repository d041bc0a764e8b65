// Paths made of paths: a name beside a file's, and its directory's.
#![tactic(auto)]

pub mod path;
