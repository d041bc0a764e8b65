// A journal replayed, and a list recorded behind it.
ghost use Rattle.std.specs.Prelude.{◌≤◌, vec_len, IfSome};

use anyhow::{Context, Result};
use journal::known::{Book, Known};
use journal_append::bytes::lent;
use layout::state::{LentState, NUMBERS, SERIALS};
use record_answer::desk::Desk;
use record_answer::disk::is_log_short;
use record_calls::calls::record_calls;
use replaying::replay::replay;
use rules::table::Lent;
use std::fs;
use std::process::ExitCode;
use std::rt::Files;
use storage::memory::Memory;
use valid::valid::segments;
use verb_journal::named::{Shelf, too_large};
use verb_words::answer::end_with;

// Replays the journal, which the memory holds, into a fresh table in all of it, and then records CALLS.
pub fn record_journal(
    rt: &(impl Files + Input + Print),
    calls: &str,
    shelf: Shelf<'_>,
    memory: &mut Memory,
) -> Result<ExitCode>
    requires { IfSome shelf.kept (λ used. used ≤ vec_len memory.old.journal) }
{
    let used = shelf.used();
    let mut numbers = [0; NUMBERS];
    let mut serials = [0; SERIALS];
    let mut state = LentState {
        numbers: &mut numbers,
        serials: &mut serials,
    };
    let mut table = Lent {
        parents: &mut memory.parents,
        crowns: &mut memory.crowns,
        amounts: &mut memory.amounts,
        log: &mut memory.log,
    };
    let ended = replay(&mut state, &mut table, &memory.journal[..used]);
    if ended.no != 0 {
        return refuse(rt, shelf, ended.no, ended.entry, table.log.len());
    }
    let known = Known {
        used,
        segments: segments(&memory.journal[..used]) as u64,
        open: ended.head.open,
        waiting: 0,
    };
    let most = lent(used, shelf.room, memory.journal.len());
    let mut desk = Desk {
        state,
        lent: table,
        book: Book {
            bytes: &mut memory.journal[..most],
            known,
        },
        shelf,
    };
    record_opened(rt, &mut desk, calls, ended.entry as u64, &mut memory.line)
}

// A journal that is refused.
fn refuse(
    rt: &impl Print,
    shelf: Shelf<'_>,
    no: u32,
    entry: usize,
    log: usize,
) -> Result<ExitCode> {
    if is_log_short(no, log) {
        return Err(too_large(shelf.path));
    }
    end_with(rt, no, entry as u64)
}

// CALLS opened: `-` is standard input.
fn record_opened(
    rt: &(impl Files + Input),
    desk: &mut Desk<'_>,
    calls: &str,
    entries: u64,
    line: &mut [u8],
) -> Result<ExitCode> {
    if calls == "-" {
        return record_calls(rt, desk, entries, &mut rt.reader(), line);
    }
    let mut file = fs::open(rt, calls).context(calls)?;
    record_calls(rt, desk, entries, &mut file, line)
}
