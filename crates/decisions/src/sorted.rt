ghost use Rattle.std.specs.Prelude.{◌≡◌};
ghost use Rattle.decisions.specs.Sorted.{sorted_call};

use plans::verdict::{OneCall, TwoCall};
use rules::call::Call;
use undo_log::tokens::HeadCall;

// A call that walks, with the keys that it walks from. What is asked stands between two keys, so that the numbers of both kinds lie at
// the same places: the compiled code is quicker for it.
#[derive(Drop)]
pub enum WalkCall {
    One(u32, OneCall),
    Two(u32, TwoCall, u32),
}

// Any call, by what it touches.
#[derive(Drop)]
pub enum Sorted {
    Walk(WalkCall),
    New(u32, u64),
    TryProbe(u32),
    Rollback(u64),
    Rest(HeadCall),
}

impl From<Call> for Sorted {
    ghost from_gives = { λ call sorted. sorted_call sorted ≡ call };

    fn from(call: Call) -> Sorted {
        match call {
            Call::New(owner, amount) => Sorted::New(owner, amount),
            Call::Len => Sorted::Rest(HeadCall::Len),
            Call::Find(key) => Sorted::Walk(WalkCall::One(key, OneCall::Find)),
            Call::Unioned(a, b) => Sorted::Walk(WalkCall::Two(a, TwoCall::Unioned, b)),
            Call::Join(a, b) => Sorted::Walk(WalkCall::Two(a, TwoCall::Join, b)),
            Call::Post(key, owner, amount) => {
                Sorted::Walk(WalkCall::One(key, OneCall::Post(owner, amount)))
            }
            Call::Probe(key) => Sorted::Walk(WalkCall::One(key, OneCall::Probe)),
            Call::ProbeKey(key) => Sorted::Walk(WalkCall::One(key, OneCall::ProbeKey)),
            Call::TryProbe(key) => Sorted::TryProbe(key),
            Call::Snapshot => Sorted::Rest(HeadCall::Snapshot),
            Call::Rollback(token) => Sorted::Rollback(token),
            Call::Commit(token) => Sorted::Rest(HeadCall::Commit(token)),
            Call::Keys(token) => Sorted::Rest(HeadCall::Keys(token)),
            Call::Actions(token) => Sorted::Rest(HeadCall::Actions(token)),
            Call::Changes(token) => Sorted::Rest(HeadCall::Changes(token)),
        }
    }
}
