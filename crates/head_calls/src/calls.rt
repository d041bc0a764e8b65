// The calls that neither read nor write rows and entries, over what a call has to know of a state.
ghost use Rattle.std.specs.Prelude.{◌≡◌, ◌≤◌};
ghost use Rattle.rules.specs.Rules.{MAX-OPEN};
ghost use Rattle.undo_log.specs.HeadCalls.{on_head};

use questions::calls::{actions_since, has_changes, keys_since};
use rules::table::{Head, Mark};
use undo_log::tokens::{HeadCall, Settled, commit, len, snapshot};

// What a call has to know of a state: its head, the last serial, and the mark that the call is about.
#[derive(Clone, Copy)]
pub struct Outline {
    pub head: Head,
    pub last: u64,
    pub sought: Option<Mark>,
}

// Any of these calls.
#[tactic(auto, unfolding(undo_log::specs::HeadCalls::on_head))]
pub fn on_head(outline: Outline, call: HeadCall) -> Settled
    requires { outline.head.«open» ≤ MAX-OPEN }
    ensures { result ≡ on_head outline.head outline.last outline.sought call }
{
    let Outline { head, last, sought } = outline;
    match call {
        HeadCall::Len => len(head),
        HeadCall::Snapshot => snapshot(head, last),
        HeadCall::Commit(_) => commit(head, sought),
        HeadCall::Keys(_) => keys_since(head, sought),
        HeadCall::Actions(_) => actions_since(head, sought),
        HeadCall::Changes(_) => has_changes(head, sought),
    }
}
