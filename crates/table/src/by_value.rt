// Any call over a state that is handed in and back by value: thin over `call`.
ghost use Rattle.std.specs.Prelude.{◌≡◌};
ghost use Rattle.rules.specs.Rules.{table_in, table_seen, outcome_of, step, SameParts};
ghost use Rattle.undo_log.specs.HeadCalls.{head_call};
ghost use Rattle.table.specs.Outlines.{outline_of};

use head_calls::calls::Outline;
use rules::call::{Answered, Call};
use rules::table::{Lent, Seen, State};
use sought::marks::mark_for;
use states::state::state_after;
use undo_log::tokens::HeadCall;

// What a call has to know of a state.
fn outline(state: State, call: Call) -> Outline
    ensures { result ≡ outline_of state call }
{
    Outline {
        head: state.head(),
        last: state.last,
        sought: mark_for(state, call),
    }
}

// Carries out any call.
pub fn call(state: State, lent: &mut Lent<'_>, call: Call) -> Answered
    ensures same_parts { SameParts lent.old lent.new }
    ensures value { outcome_of result (table_in lent.new) ≡ step (table_in lent.old state) call }
{
    let settled = crate::call::call(lent, outline(state, call), call);
    state_after(state, settled)
}

// A call that neither reads nor writes rows and entries: what is lent is only measured.
pub fn rest(state: State, seen: Seen<'_>, asked: HeadCall) -> Answered
    ensures { outcome_of result (table_seen seen.entry) ≡ step (table_seen seen.entry state) (head_call asked) }
{
    let settled = crate::call::rest(seen, outline(state, Call::from(asked)), asked);
    state_after(state, settled)
}
