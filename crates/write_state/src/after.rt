// The numbers that a call leaves, written.
ghost use Rattle.std.specs.Prelude.{◌≡◌, length};
ghost use Rattle.undo_log.specs.Settled.{state_after};
ghost use Rattle.layout.specs.State.{NUMBERS, headed};
ghost use Rattle.layout.specs.Lent.{SameState, state_under};

use layout::state::{LentState, mark_place};
use rules::numbers::MAX_OPEN;
use rules::table::Head;
use undo_log::tokens::Settled;

// Makes the numbers stand for the state that a call leaves, but for its head, which is the caller's to keep: where the call opened a
// snapshot, the token and the mark. Where each number stands is C's (docs/LIBRARY.md), so it is written by its place.
#[tactic(auto, using(layout::proofs::LayoutLaws::after_level, layout::proofs::LayoutLaws::after_beyond, layout::proofs::LayoutLaws::after_opened))]
pub fn write_after(state: &mut LentState<'_>, before: Head, settled: Settled)
    ensures same_state { SameState state.old state.new }
    ensures value { state_under settled.head state.new ≡ state_after (state_under before state.old) settled }
{
    let Settled { answer, head } = settled;
    if head.open <= before.open {
        return;
    }
    let numbers = &mut *state.numbers;
    let serials = &mut *state.serials;
    serials[0] = answer.token;
    if before.open >= MAX_OPEN {
        return;
    }
    let i = before.open as usize;
    let to = mark_place(i);
    serials[i + 1] = answer.token;
    numbers[to] = before.used;
    numbers[to + 1] = before.count;
}

// Writes a head over the short numbers.
pub fn put_head(numbers: &mut [u32], head: Head)
    requires { length numbers.old ≡ NUMBERS }
    ensures { numbers.new ≡ headed numbers.old head }
{
    numbers[0] = head.count;
    numbers[1] = head.used;
    numbers[2] = head.open;
}

// Writes a head that was kept.
pub fn write_head(state: &mut LentState<'_>, head: Head)
    ensures same_state { SameState state.old state.new }
    ensures numbers { state.new.numbers.now ≡ headed state.old.numbers.now head }
    ensures serials { state.new.serials.now ≡ state.old.serials.now }
{
    put_head(state.numbers, head);
}
