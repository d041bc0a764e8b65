// Document 02, Q-1: "Rollback and commit act on the innermost."
ghost use Rattle.std.specs.Prelude.{◌≡◌, ◌-◌, ◌≤◌, None};
ghost use Rattle.rules.specs.Rules.{MAX-OPEN, mark_at};
ghost use Rattle.layout.specs.Lent.{state_under};
ghost use Rattle.undo_log.specs.Settled.{mark_for};
ghost use Rattle.entry_calls.specs.Ready.{ready, ready_for};

use journal::entry::Entry;
use layout::state::LentState;
use rules::call::Call;
use rules::table::{Head, Mark};
use sought::marks::{Marks, mark_under};

// A call, and the mark that it is about.
#[derive(Clone, Copy)]
pub struct Ready {
    pub call: Call,
    pub sought: Option<Mark>,
}

// The innermost open snapshot's mark; the outermost place's where none is open. How many are open is as C lends it, any number, until
// BAD_STATE is judged: so the bound stands at these three functions, and in no type of heads.
fn innermost(state: &LentState<'_>, head: Head) -> Mark
    requires { head.«open» ≤ MAX-OPEN }
    ensures { result ≡ mark_at (state_under head state.now) (head.«open» - 1) }
{
    state.mark((head.open as usize).saturating_sub(1))
}

// A call that is about no mark.
fn markless(call: Call) -> Ready
    ensures { result ≡ ready call None }
{
    Ready { call, sought: None }
}

// A call that closes a snapshot.
fn closing(state: &LentState<'_>, head: Head, call: Call) -> Ready
    ensures { result ≡ ready call (mark_for (state_under head state.now) call) }
{
    Ready {
        call,
        sought: mark_under(state, head, call),
    }
}

// The call that an entry is, in a table with this state, and the mark that it is about. Both are made where the entry's kind is told: of a
// mark that is looked for by the finished call, the compiled code tells the kind once more (docs/BENCHMARKS.md).
pub fn ready_for(state: &LentState<'_>, head: Head, entry: Entry) -> Ready
    requires { head.«open» ≤ MAX-OPEN }
    ensures { result ≡ ready_for (state_under head state.now) entry }
{
    match entry {
        Entry::EntryNew(owner, amount) => markless(Call::New(owner, amount)),
        Entry::EntryPost(key, owner, amount) => markless(Call::Post(key, owner, amount)),
        Entry::EntryJoin(a, b) => markless(Call::Join(a, b)),
        Entry::EntrySnapshot => markless(Call::Snapshot),
        Entry::EntryRollback => {
            let call = Call::Rollback(innermost(state, head).serial);
            closing(state, head, call)
        }
        Entry::EntryCommit => {
            let call = Call::Commit(innermost(state, head).serial);
            closing(state, head, call)
        }
        Entry::NoEntry => markless(Call::Len),
    }
}
