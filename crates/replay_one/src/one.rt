ghost use Rattle.std.specs.Prelude.{◌≡◌};
ghost use Rattle.rules.specs.Rules.{outcome, step};
ghost use Rattle.journal.specs.Replay.{call_for};
ghost use Rattle.numbered.specs.Going.{going_table, SameGoing};

use bad_state::bad::refuse_bad;
use entry_calls::ready::{Ready, ready_for};
use journal::entry::Entry;
use numbered::going::Going;
use numbered::one::carry_out;
use rules::call::Answer;

// One entry on a table whose state is lent as numbers.
#[tactic(auto, using(rules::proofs::StateLaws::bad_good, bad_state::proofs::GoodLaws::refused_bad))]
pub fn replay_entry(going: &mut Going<'_, '_, '_, '_>, entry: Entry) -> Answer
    ensures same_going { SameGoing going.old going.new }
    ensures value { outcome result (going_table going.new)
        ≡ step (going_table going.old) (call_for (going_table going.old).state entry) }
{
    if going.is_bad {
        return refuse_bad(going.head).answer;
    }
    let head = going.head;
    let Ready { call, sought } = ready_for(going.state, head, entry);
    carry_out(going, sought, call)
}
