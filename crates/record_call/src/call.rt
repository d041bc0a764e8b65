ghost use Rattle.std.specs.Prelude.{◌≡◌, length};
ghost use Rattle.rules.specs.Rules.{table_in, SameParts};
ghost use Rattle.layout.specs.State.{NUMBERS};
ghost use Rattle.layout.specs.Lent.{SameState, head_lent, state_in};
ghost use Rattle.numbered.specs.Going.{SameGoing};
ghost use Rattle.journal.specs.Record.{book_in, SameBook, recorded, record_step};

use bad_state::bad::bad_lent;
use call_numbers::numbers::numbers_of;
use coding::asked::AskedCall;
use journal::known::Book;
use layout::state::LentState;
use numbered::going::Going;
use record_list::list::record_next;
use rules::call::{Answer, Call};
use rules::table::Lent;
use write_state::after::write_head;

// A call on a table whose head is at hand; then the head is written.
#[tactic(auto, using(crate::proofs::CallLaws::between))]
fn record_on(going: &mut Going<'_, '_, '_, '_>, book: &mut Book<'_>, call: Call) -> Answer
    requires head { going.old.head ≡ head_lent going.old.state.now }
    requires numbers { length going.old.state.now.numbers.now ≡ NUMBERS }
    ensures same_going { SameGoing going.old going.new }
    ensures same_book { SameBook book.old book.new }
    ensures value { recorded result (table_in going.new.lent.now (state_in going.new.state.now)) (book_in book.new)
        ≡ record_step book.old.bytes.now book.old.known (table_in going.old.lent.now (state_in going.old.state.now)) call }
{
    let numbers = &numbers_of(call);
    let answer = record_next(going, book, AskedCall { numbers });
    let left = going.head;
    write_head(going.state, left);
    answer
}

// The head is read before the call and written after it.
pub fn record_call(
    state: &mut LentState<'_>,
    lent: &mut Lent<'_>,
    book: &mut Book<'_>,
    call: Call,
) -> Answer
    ensures same_state { SameState state.old state.new }
    ensures same_parts { SameParts lent.old lent.new }
    ensures same_book { SameBook book.old book.new }
    ensures value { recorded result (table_in lent.new (state_in state.new)) (book_in book.new)
        ≡ record_step book.old.bytes.now book.old.known (table_in lent.old (state_in state.old)) call }
{
    let head = state.head();
    let is_bad = bad_lent(head, lent);
    let mut going = Going {
        state,
        lent,
        head,
        is_bad,
    };
    record_on(&mut going, book, call)
}
