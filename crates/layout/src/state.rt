// The state of a table as the numbers that the host lends: no more of it is read than a call is about.
ghost use Rattle.std.specs.Prelude.{◌≡◌, ◌+◌, ◌<◌};
ghost use Rattle.rules.specs.Rules.{MAX-OPEN, mark_at};
ghost use Rattle.layout.specs.State.{NUMBERS, Sized, head_in};
ghost use Rattle.layout.specs.Lent.{head_lent, state_in};

use crate::seen::{head_of, mark_at};
use rules::table::{Head, Mark};
use sought::marks::Marks;
pub use sought::marks::{asked_mark, closing_mark};

// How many short and long numbers a state has.
pub const NUMBERS: usize = 67;

pub const SERIALS: usize = 33;

// The numbers of a state: the head, then each mark's log length and keys; and the last serial, then each mark's serial. Where each stands
// is C's (docs/LIBRARY.md), so they are read by their places.
#[derive(Drop)]
pub struct LentState<'a> {
    pub numbers: &'a mut [u32; NUMBERS],
    pub serials: &'a mut [u64; SERIALS],
}

// Where the short numbers of mark i begin: its log length, then its keys.
pub fn mark_place(i: usize) -> usize
    requires { i < MAX-OPEN }
    ensures { result ≡ i + i + 3 }
{
    i + i + 3
}

// For proofs alone: the arrays' lengths, which their types tell.
fn sized(_numbers: &[u32; NUMBERS], _serials: &[u64; SERIALS])
    ensures { Sized _numbers.now _serials.now }
{}

impl LentState<'_> {
    // The head of the state.
    pub fn head(&self) -> Head
        ensures head { result ≡ head_lent self.now }
        ensures sized { Sized self.now.numbers.now self.now.serials.now }
    {
        let numbers = &*self.numbers;
        sized(numbers, self.serials);
        head_of(numbers)
    }
}

impl Marks for LentState<'_> {
    ghost state = { state_in };

    fn mark(&self, i: usize) -> Mark {
        let numbers = &*self.numbers;
        let serials = &*self.serials;
        sized(numbers, serials);
        mark_at(numbers, serials, i)
    }
}
