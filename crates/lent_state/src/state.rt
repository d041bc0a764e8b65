ghost use Rattle.std.specs.Prelude.{◌≡◌, drop};
ghost use Rattle.layout.specs.State.{Sized, marks_of, state_of};
ghost use Rattle.layout.specs.Lent.{state_in};

use layout::seen::{head_of, mark_at};
use layout::state::LentState;
use rules::table::{Mark, State};

// All marks. They are written one by one: of what `from_fn` or `iter_mut` makes too little is known.
#[tactic(auto, using(crate::proofs::MarksLaws::all_marks))]
fn marks_in(numbers: &[u32], serials: &[u64]) -> [Mark; 32]
    requires { Sized numbers.now serials.now }
    ensures { result ≡ marks_of (drop 3 numbers.now) (drop 1 serials.now) }
{
    let none = Mark {
        serial: 0,
        log_len: 0,
        keys: 0,
    };
    let mut marks = [none; 32];
    for i in 0..32 {
        marks[i] = mark_at(numbers, serials, i);
    }
    marks
}

// The state of numbers that are lent to be read alone.
pub fn state_of(numbers: &[u32], serials: &[u64]) -> State
    requires { Sized numbers.now serials.now }
    ensures { result ≡ state_of numbers.now serials.now }
{
    let head = head_of(numbers);
    State {
        count: head.count,
        used: head.used,
        open: head.open,
        last: serials[0],
        marks: marks_in(numbers, serials),
    }
}

// The state that the numbers are.
pub fn state_in(state: &LentState<'_>) -> State
    ensures { result ≡ state_in state.now }
{
    // For the lengths, which it says.
    state.head();
    state_of(state.numbers, state.serials)
}
