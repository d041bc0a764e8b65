ghost use Rattle.std.specs.Prelude.{◌≡◌, ◌≤◌, ◌<◌};
ghost use Rattle.rules.specs.Rules.{MAX-OPEN, State, mark_at, seek, with_head};
ghost use Rattle.rules.specs.declared.call.Call.TheVariants.{Rollback, Keys};
ghost use Rattle.undo_log.specs.Settled.{latest, mark_for};

use rules::call::Call;
use rules::numbers::MAX_OPEN;
use rules::table::{Head, Mark, State};

// What holds the marks of a state: the state by value, or the numbers that are lent for it.
pub trait Marks {
    // The state.
    ghost state: { Self → State };

    // Mark `i`, from the outermost on.
    fn mark(&self, i: usize) -> Mark
        requires { i < MAX-OPEN }
        ensures { result ≡ mark_at (state self.now) i };
}

impl Marks for State {
    ghost state = { λ by_value. by_value };

    fn mark(&self, i: usize) -> Mark {
        self.marks[i]
    }
}

// The innermost mark, where the token is its own. The head is at hand, which may be newer than the one that is held. How many are open is
// as C lends it, any number, until BAD_STATE is judged: so the bound stands here and at `seek`, and in no type of heads.
fn latest<M: Marks>(marks: &M, head: Head, token: u64) -> Option<Mark>
    requires { head.«open» ≤ MAX-OPEN }
    ensures { result ≡ latest (with_head (M.state marks.now) head) token }
{
    if head.open == 0 {
        return None;
    }
    let mark = marks.mark(head.open as usize - 1);
    if mark.serial != token {
        return None;
    }
    Some(mark)
}

// The mark that a token names, from the innermost outwards.
#[tactic(auto, using(undo_log::proofs::MarkLaws::seek_hit, undo_log::proofs::MarkLaws::seek_miss), unfolding(rules::specs::Tokens::seek))]
fn seek<M: Marks>(marks: &M, head: Head, token: u64) -> Option<Mark>
    requires { head.«open» ≤ MAX-OPEN }
    ensures { result ≡ seek (with_head (M.state marks.now) head) token head.«open» }
{
    for i in (0..head.open as usize).rev() {
        let mark = marks.mark(i);
        if mark.serial == token {
            return Some(mark);
        }
    }
    None
}

// The mark that a rollback or commit is about: none where more snapshots are open than there are marks.
#[tactic(auto, unfolding(undo_log::specs::Settled::mark_for))]
pub fn closing_mark<M: Marks>(marks: &M, head: Head, token: u64) -> Option<Mark>
    ensures { result ≡ mark_for (with_head (M.state marks.now) head) (Rollback token) }
{
    if head.open > MAX_OPEN {
        return None;
    }
    latest(marks, head, token)
}

// The mark that a question is about. This and `closing_mark` differ in one call: docs/CONTRACTS.md names both.
#[tactic(auto, unfolding(undo_log::specs::Settled::mark_for))]
pub fn asked_mark<M: Marks>(marks: &M, head: Head, token: u64) -> Option<Mark>
    ensures { result ≡ mark_for (with_head (M.state marks.now) head) (Keys token) }
{
    if head.open > MAX_OPEN {
        return None;
    }
    seek(marks, head, token)
}

// The mark that a call is about, with the head at hand: none where the call names no token, or the state is bad.
#[tactic(auto, unfolding(undo_log::specs::Settled::mark_for))]
pub fn mark_under<M: Marks>(marks: &M, head: Head, call: Call) -> Option<Mark>
    ensures { result ≡ mark_for (with_head (M.state marks.now) head) call }
{
    match call {
        Call::Rollback(token) | Call::Commit(token) => closing_mark(marks, head, token),
        Call::Keys(token) | Call::Actions(token) | Call::Changes(token) => {
            asked_mark(marks, head, token)
        }
        _ => None,
    }
}

// The same of a state by value.
pub fn mark_for(state: State, call: Call) -> Option<Mark>
    ensures { result ≡ mark_for state call }
{
    mark_under(&state, state.head(), call)
}
