ghost use Rattle.std.specs.Prelude.{◌≡◌, ◌≤◌, length};
ghost use Rattle.journal.specs.Numbers.{SEGMENT};
ghost use Rattle.journal.specs.Written.{entry_for};
ghost use Rattle.journal.specs.Record.{too_long};
ghost use Rattle.recording.specs.Barred.{as_written, barred, no_of};

use journal::entry::{ENTRY_BYTES, Entry, SEGMENT, TRAILER_BYTES};
use journal::known::Book;
use rules::call::Call;
use rules::numbers::WORD;
use rules::refusal::Refusal;

// What is written of a call that is answered DONE.
pub fn entry_for(call: Call) -> Option<Entry>
    ensures { as_written result ≡ entry_for call }
{
    let entry = match call {
        Call::New(owner, amount) => Entry::EntryNew(owner, amount),
        Call::Join(a, b) => Entry::EntryJoin(a, b),
        Call::Post(key, owner, amount) => Entry::EntryPost(key, owner, amount),
        Call::Snapshot => Entry::EntrySnapshot,
        Call::Rollback(_) => Entry::EntryRollback,
        Call::Commit(_) => Entry::EntryCommit,
        _ => return None,
    };
    Some(entry)
}

// Whether the journal, with so many entries more and a trailer, is longer than its buffer. The used length is any number whatever.
pub fn too_long(more: usize, book: &Book<'_>) -> bool
    requires { (more ≤ 1) × (book.now.known.waiting ≤ SEGMENT) }
    ensures { result ≡ too_long more (length book.now.bytes.now) book.now.known }
{
    let long = book.bytes.len();
    let used = book.known.used;
    used > long || long - used < ENTRY_BYTES * (book.known.waiting + more) + TRAILER_BYTES
}

// Why a call, which is written or not, is not carried out: 12 or 16.
pub fn barred(mine: bool, book: &Book<'_>, opened: u32) -> Result<(), Refusal>
    ensures { no_of result ≡ barred mine book.now.known opened (length book.now.bytes.now) }
{
    if !mine {
        return Ok(());
    }
    let known = book.known;
    if known.open != opened || known.waiting >= SEGMENT || known.segments >= WORD {
        return Err(Refusal::BadJournal);
    }
    if too_long(1, book) {
        return Err(Refusal::NoRoom);
    }
    Ok(())
}
