ghost use Rattle.std.specs.Prelude.{◌≡◌, false};
ghost use Rattle.rules.specs.Rules.{rows_in, log_in, table_in, SameParts, outcome, sizes_of, bad, step};
ghost use Rattle.undo_log.specs.Settled.{mark_for};
ghost use Rattle.layout.specs.Lent.{SameState, state_under};
ghost use Rattle.numbered.specs.Going.{going_table, SameGoing};

use crate::going::Going;
use bad_state::bad::stray;
use head_calls::calls::Outline;
use layout::state::LentState;
use rules::call::{Answer, Call};
use rules::table::{Head, Lent, Mark};
use table::call::call_good;
use undo_log::tokens::Settled;
use write_state::after::write_after;

// One call where nothing is bad, with the head and the mark in question at hand: of the state that is lent as numbers, no more is
// read than the last serial and no more written than a mark that the call makes.
#[tactic(auto, using(crate::proofs::OneLaws::one_done))]
fn settle(
    state: &mut LentState<'_>,
    lent: &mut Lent<'_>,
    head: Head,
    sought: Option<Mark>,
    call: Call,
) -> Settled
    requires sought_value { sought ≡ mark_for (state_under head state.old) call }
    requires head_value { bad (sizes_of (rows_in lent.old) (log_in lent.old)) head ≡ false }
    ensures same_state { SameState state.old state.new }
    ensures same_parts { SameParts lent.old lent.new }
    ensures value { outcome result.answer (table_in lent.new (state_under result.head state.new))
        ≡ step (table_in lent.old (state_under head state.old)) call }
{
    let outline = Outline {
        head,
        last: state.serials[0],
        sought,
    };
    let settled = call_good(lent, outline, call);
    write_after(state, head, settled);
    settled
}

// The same of a table that goes on from call to call. Of what makes a table bad, a call can leave only entries used with nothing open.
pub fn carry_out(going: &mut Going<'_, '_, '_, '_>, sought: Option<Mark>, call: Call) -> Answer
    requires sought_value { sought ≡ mark_for (going_table going.old).state call }
    requires good { going.old.is_bad ≡ false }
    ensures same_going { SameGoing going.old going.new }
    ensures value { outcome result (going_table going.new) ≡ step (going_table going.old) call }
{
    let settled = settle(going.state, going.lent, going.head, sought, call);
    going.head = settled.head;
    going.is_bad = stray(settled.head);
    settled.answer
}
