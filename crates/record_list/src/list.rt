ghost use Rattle.std.specs.Prelude.{◌≡◌, true, cond, [], ◌*◌, ◌≤◌, length, eqb};
ghost use Rattle.rules.specs.Rules.{DONE, SameParts};
ghost use Rattle.layout.specs.State.{Sized};
ghost use Rattle.layout.specs.Lent.{SameState, head_lent};
ghost use Rattle.numbered.specs.Going.{going_table, SameGoing};
ghost use Rattle.coding.specs.Coding.{call_at, call_list, is_listed, calls_in};
ghost use Rattle.journal.specs.Written.{entry_for};
ghost use Rattle.journal.specs.Record.{book_in, SameBook, put_down, is_written, recorded, record_step};
ghost use Rattle.recording.specs.Barred.{RoomForOne};
ghost use Rattle.record_list.specs.Mine.{mine_by};
ghost use Rattle.runs.specs.Served.{host_in};
ghost use Rattle.record_list.specs.Lent.{lent as all_lent, recorded_from};

use bad_state::bad::bad_lent;
use coding::asked::AskedCall;
use journal::known::Book;
use layout::state::LentState;
use makers::answer::ANSWER;
use numbered::going::Going;
use recording::after::put_down;
use recording::before::{barred, entry_for};
use rules::call::Answer;
use rules::numbers::DONE;
use rules::table::Lent;
use runs::list::next;
use undo_log::tokens::refused;
use write_answer::answers::put;
use write_state::after::write_head;

// Whether calls of this code, which is C's, are written: New is 0, Join and Post are 4 and 5, Snapshot, Rollback and Commit 9 to 11.
fn is_mine(code: u64) -> bool
    ensures { result ≡ mine_by code }
{
    matches!(code, 0 | 4 | 5 | 9..=11)
}

// "Exactly the DONE calls of these six kinds are written": what is written of a call, when so many snapshots are open. It is made
// out only once the call is DONE.
fn note(book: &mut Book<'_>, asked: AskedCall<'_>, mine: bool, no: u32, opened: u32)
    requires mine_value { mine ≡ is_written (entry_for (call_at asked.numbers.now 0)) }
    requires room_for_one { mine ≡ true → RoomForOne book.old.known (length book.old.bytes.now) }
    ensures same_book { SameBook book.old book.new }
    ensures put { book_in book.new
        ≡ put_down book.old.bytes.now book.old.known (cond (eqb no DONE) (entry_for (call_at asked.entry.numbers.now 0)) []) opened }
{
    if !mine || no != DONE {
        return;
    }
    if let Some(entry) = entry_for(asked.call()) {
        put_down(book, entry, opened);
    }
}

// One call of a list, and what is written of it. Nothing is read of the journal.
pub fn record_next(
    going: &mut Going<'_, '_, '_, '_>,
    book: &mut Book<'_>,
    asked: AskedCall<'_>,
) -> Answer
    ensures same_going { SameGoing going.old going.new }
    ensures same_book { SameBook book.old book.new }
    ensures value { recorded result (going_table going.new) (book_in book.new)
        ≡ record_step book.old.bytes.now book.old.known (going_table going.old) (call_at asked.entry.numbers.now 0) }
{
    let numbers = asked.numbers;
    let mine = is_mine(numbers[0]);
    let opened = going.head.open;
    if let Err(why) = barred(mine, book, opened) {
        return refused(why, going.head).answer;
    }
    let answer = next(going, asked);
    note(book, asked, mine, answer.no, going.head.open);
    answer
}

// A list that is one of calls, on a table that goes on from call to call; then the head is written.
fn record_on(
    going: &mut Going<'_, '_, '_, '_>,
    book: &mut Book<'_>,
    calls: &[u64],
    answers: &mut [u64],
)
    requires calls_value { is_listed (call_list calls.now) ≡ true }
    requires calls_bound { 9 * length calls.now ≤ 4 * length answers.old }
    requires head { going.old.head ≡ head_lent going.old.state.now }
    requires sized { Sized going.old.state.now.numbers.now going.old.state.now.serials.now }
    ensures same_going { SameGoing going.old going.new }
    ensures same_book { SameBook book.old book.new }
    ensures value { all_lent (host_in going.new.state.now going.new.lent.now answers.new) (book_in book.new)
        ≡ recorded_from 0 (host_in going.old.state.now going.old.lent.now answers.old) (book_in book.old) (calls_in (call_list calls.now)) }
{
    let (fours, _) = calls.as_chunks();
    for (i, numbers) in fours.iter().enumerate() {
        let asked = AskedCall { numbers };
        let answer = record_next(going, book, asked);
        put(answers, i * ANSWER, answer);
    }
    let left = going.head;
    write_head(going.state, left);
}

// Carries out a list that is one of calls, with room for the answers, and writes it. The head is at hand from call to call, and is
// written once.
pub fn run_recorded(
    state: &mut LentState<'_>,
    lent: &mut Lent<'_>,
    book: &mut Book<'_>,
    calls: &[u64],
    answers: &mut [u64],
)
    requires calls_value { is_listed (call_list calls.now) ≡ true }
    requires calls_bound { 9 * length calls.now ≤ 4 * length answers.old }
    ensures same_state { SameState state.old state.new }
    ensures same_parts { SameParts lent.old lent.new }
    ensures same_book { SameBook book.old book.new }
    ensures value { all_lent (host_in state.new lent.new answers.new) (book_in book.new)
        ≡ recorded_from 0 (host_in state.old lent.old answers.old) (book_in book.old) (calls_in (call_list calls.now)) }
{
    let head = state.head();
    let is_bad = bad_lent(head, lent);
    let mut going = Going {
        state,
        lent,
        head,
        is_bad,
    };
    record_on(&mut going, book, calls, answers);
}
