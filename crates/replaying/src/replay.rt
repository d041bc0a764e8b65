// Document 02, Q-1: "Replay stops at the first entry not answered DONE and names it."
ghost use Rattle.std.specs.Prelude.{◌≡◌, true, length};
ghost use Rattle.rules.specs.Rules.{table_in, SameParts};
ghost use Rattle.layout.specs.State.{NUMBERS};
ghost use Rattle.layout.specs.Lent.{SameState, state_in};
ghost use Rattle.numbered.specs.Going.{going_table, SameGoing};
ghost use Rattle.journal.specs.Journal.{valid};
ghost use Rattle.journal.specs.Replay.{replay_bytes};
ghost use Rattle.replaying.specs.Ended.{replayed_by};

use bad_state::bad::bad_lent;
use entry_read::walk::Entries;
use layout::state::LentState;
use numbered::going::Going;
use replay_one::one::replay_entry;
use rules::numbers::DONE;
use rules::refusal::Refusal;
use rules::table::{Head, Lent};
use valid::valid::valid;
use write_state::after::write_head;

// A number, the place of the entry at which replay stopped or how many entries there were, and the head that is left. The number is the
// last answer's, and no `Result`: a replay that stops leaves a place and a head as one that doesn't.
#[derive(Clone, Copy)]
pub struct Ended {
    pub no: u32,
    pub entry: usize,
    pub head: Head,
}

// A valid journal, entry by entry from the front, the head at hand.
fn replay_valid(going: &mut Going<'_, '_, '_, '_>, bytes: &[u8]) -> Ended
    requires bytes_value { valid bytes.now ≡ true }
    ensures same_going { SameGoing going.old going.new }
    ensures head { result.head ≡ going.new.head }
    ensures value { replayed_by result.no result.entry (going_table going.new) ≡ replay_bytes bytes.now (going_table going.old) }
{
    let mut place = 0;
    for entry in Entries::new(bytes) {
        let answer = replay_entry(going, entry);
        if answer.no != DONE {
            return Ended {
                no: answer.no,
                entry: place,
                head: going.head,
            };
        }
        place += 1;
    }
    Ended {
        no: DONE,
        entry: place,
        head: going.head,
    }
}

// The same, and the head that is left is written.
fn replay_on(going: &mut Going<'_, '_, '_, '_>, bytes: &[u8]) -> Ended
    requires bytes_value { valid bytes.now ≡ true }
    requires numbers { length going.old.state.now.numbers.now ≡ NUMBERS }
    ensures same_going { SameGoing going.old going.new }
    ensures value { replayed_by result.no result.entry (table_in going.new.lent.now (state_in going.new.state.now))
        ≡ replay_bytes bytes.now (going_table going.old) }
{
    let ended = replay_valid(going, bytes);
    write_head(going.state, ended.head);
    ended
}

// Any bytes, on any table whose state is lent as numbers. What isn't a journal changes nothing.
pub fn replay(state: &mut LentState<'_>, lent: &mut Lent<'_>, bytes: &[u8]) -> Ended
    ensures same_state { SameState state.old state.new }
    ensures same_parts { SameParts lent.old lent.new }
    ensures value { replayed_by result.no result.entry (table_in lent.new (state_in state.new))
        ≡ replay_bytes bytes.now (table_in lent.old (state_in state.old)) }
{
    let head = state.head();
    if !valid(bytes) {
        return Ended {
            no: Refusal::BadJournal.code(),
            entry: 0,
            head,
        };
    }
    let is_bad = bad_lent(head, lent);
    let mut going = Going {
        state,
        lent,
        head,
        is_bad,
    };
    replay_on(&mut going, bytes)
}
