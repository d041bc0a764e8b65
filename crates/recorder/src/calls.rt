// Document 02, Q-1: exported.
ghost use Rattle.std.specs.Prelude.{◌≡◌};
ghost use Rattle.coding.specs.Coding.{call_list};
ghost use Rattle.runs.specs.Served.{host_lent};
ghost use Rattle.recorder.specs.Journals.{returned, record_lent, serve_record, flush_lent, serve_flush, append_lent, serve_append, known_lent, serve_known};

use admit::tests::{CARRIED_OUT, Unserved};
use appending::append::append;
use counting::known::known_of;
use journal::known::Book;
use known_numbers::known::{is_known, known_in, put_known};
use known_numbers::tests::test_record;
use layout::state::LentState;
use record_list::list::run_recorded;
use recording::segment::{flush, number_of};
use results::results::put_result;
use rules::numbers::DONE;
use rules::refusal::Refusal;
use rules::table::Lent;
use valid::valid::valid;

// Carries out a list of calls, which is tested whole before its first call, and writes those of the journal's kinds that are answered DONE.
#[unsafe(no_mangle)]
pub extern "C" fn meter_record(
    numbers: &mut [u32],
    serials: &mut [u64],
    parents: &mut [u32],
    crowns: &mut [u32],
    amounts: &mut [u64],
    log: &mut [u32],
    calls: &[u64],
    answers: &mut [u64],
    journal: &mut [u8],
    known: &mut [u64],
) -> u32
    ensures { let h = host_lent numbers.old serials.old parents.old crowns.old amounts.old log.old answers.old in
        let after = host_lent numbers.new serials.new parents.new crowns.new amounts.new log.new answers.new in
        returned result (record_lent after journal.new known.new)
        ≡ serve_record (record_lent h journal.old known.old) (call_list calls.now) }
{
    let Some(numbers) = numbers.as_mut_array() else {
        return Unserved::NoState.code();
    };
    let Some(serials) = serials.as_mut_array() else {
        return Unserved::NoState.code();
    };
    let Some(known) = known.as_mut_array() else {
        return Unserved::NoState.code();
    };
    if let Err(unserved) = test_record(calls, answers.len(), known) {
        return unserved.code();
    }
    let mut state = LentState { numbers, serials };
    let mut lent = Lent {
        parents,
        crowns,
        amounts,
        log,
    };
    let before = known_in(known);
    let mut book = Book {
        bytes: journal,
        known: before,
    };
    run_recorded(&mut state, &mut lent, &mut book, calls, answers);
    put_known(known, book.known);
    CARRIED_OUT
}

// Makes the entries that wait a segment.
#[unsafe(no_mangle)]
pub extern "C" fn meter_flush(journal: &mut [u8], known: &mut [u64], res: &mut [u64]) -> u32
    ensures { returned result (flush_lent journal.new known.new res.new)
        ≡ serve_flush (flush_lent journal.old known.old res.old) }
{
    let Some(known) = known.as_mut_array() else {
        return Unserved::NoState.code();
    };
    if !is_known(known) {
        return Unserved::NoState.code();
    }
    let Some(res) = res.as_mut_array() else {
        return Unserved::NoAnswers.code();
    };
    let mut book = Book {
        bytes: journal,
        known: known_in(known),
    };
    let no = number_of(flush(&mut book));
    let left = book.known;
    put_known(known, left);
    put_result(res, no, left.used);
    CARRIED_OUT
}

// Appends entries as one segment.
#[unsafe(no_mangle)]
pub extern "C" fn meter_append(
    journal: &mut [u8],
    used: usize,
    entries: &[u8],
    res: &mut [u64],
) -> u32
    ensures { returned result (append_lent journal.new res.new)
        ≡ serve_append (append_lent journal.old res.old) used entries.now }
{
    let Some(res) = res.as_mut_array() else {
        return Unserved::NoAnswers.code();
    };
    match append(journal, used, entries) {
        Ok(after) => put_result(res, DONE, after),
        Err(why) => put_result(res, why.code(), used),
    }
    CARRIED_OUT
}

// Judges a journal, and says what a recorder has to know of it.
#[unsafe(no_mangle)]
pub extern "C" fn meter_known(journal: &[u8], known: &mut [u64], res: &mut [u64]) -> u32
    ensures { returned result (known_lent known.new res.new)
        ≡ serve_known (known_lent known.old res.old) journal.now }
{
    let Some(known) = known.as_mut_array() else {
        return Unserved::NoState.code();
    };
    let Some(res) = res.as_mut_array() else {
        return Unserved::NoAnswers.code();
    };
    if !valid(journal) {
        put_result(res, Refusal::BadJournal.code(), 0);
        return CARRIED_OUT;
    }
    put_known(known, known_of(journal));
    put_result(res, DONE, journal.len());
    CARRIED_OUT
}
