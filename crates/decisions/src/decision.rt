use crate::sorted::WalkCall;
use crate::todo::Todo;
use plans::verdict::Planned;
use roots::path::Trail;

// A call is decided, or has a long walk.
#[derive(Drop)]
pub enum Decision {
    Near(Todo),
    Far(WalkCall),
}

// The plan of a call with a long walk, and the walks that it rewrites.
#[derive(Drop)]
pub struct FarPlan {
    pub plan: Planned,
    pub first: Trail,
    pub second: Trail,
}
