// The numbers of a state that are lent to be read alone.
ghost use Rattle.std.specs.Prelude.{◌≡◌, ◌<◌, length};
ghost use Rattle.rules.specs.declared.call.Call.TheVariants.{Rollback, Keys};
ghost use Rattle.rules.specs.Rules.{MAX-OPEN, mark_at};
ghost use Rattle.undo_log.specs.Settled.{mark_for};
ghost use Rattle.layout.specs.State.{NUMBERS, Sized, head_in, state_by, state_of};

use crate::state::mark_place;
use rules::table::{Head, Mark};
use sought::marks::Marks;

// The head that stands in the short numbers.
pub fn head_of(numbers: &[u32]) -> Head
    requires { length numbers.now ≡ NUMBERS }
    ensures { result ≡ head_in numbers.now }
{
    Head {
        count: numbers[0],
        used: numbers[1],
        open: numbers[2],
    }
}

// Mark `i`, from the outermost on.
#[tactic(auto, using(crate::proofs::LayoutLaws::mark_read))]
pub fn mark_at(numbers: &[u32], serials: &[u64], i: usize) -> Mark
    requires sized { Sized numbers.now serials.now }
    requires i_bound { i < MAX-OPEN }
    ensures { result ≡ mark_at (state_of numbers.now serials.now) i }
{
    let at = mark_place(i);
    Mark {
        serial: serials[i + 1],
        log_len: numbers[at],
        keys: numbers[at + 1],
    }
}

// Both lists of numbers, as what holds the marks of a state.
#[derive(Drop)]
struct SeenState<'a> {
    numbers: &'a [u32],
    serials: &'a [u64],
    ghost sized: { Sized numbers.now serials.now },
}

impl Marks for SeenState<'_> {
    ghost state = { λ seen. state_of seen.numbers.now seen.serials.now };

    fn mark(&self, i: usize) -> Mark {
        mark_at(self.numbers, self.serials, i)
    }
}

// The mark that a rollback or commit is about.
pub fn closing_mark(numbers: &[u32], serials: &[u64], head: Head, token: u64) -> Option<Mark>
    requires { Sized numbers.now serials.now }
    ensures { result ≡ mark_for (state_by head numbers.now serials.now) (Rollback token) }
{
    sought::marks::closing_mark(&SeenState { numbers, serials }, head, token)
}

// The mark that a question is about.
pub fn asked_mark(numbers: &[u32], serials: &[u64], head: Head, token: u64) -> Option<Mark>
    requires { Sized numbers.now serials.now }
    ensures { result ≡ mark_for (state_by head numbers.now serials.now) (Keys token) }
{
    sought::marks::asked_mark(&SeenState { numbers, serials }, head, token)
}
