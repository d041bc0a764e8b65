use crate::desk::Desk;
use anyhow::{Context, Result};
use journal::known::Book;
use journal_file::add::add_segment;
use rules::numbers::{ENTRY, MAX_ENTRIES};
use rules::refusal::Refusal;
use std::rt::Files;
use verb_journal::named::{Shelf, too_large};

// Where a segment was made behind the journal's bytes that are on disk: puts it there too.
pub fn on_disk(rt: &impl Files, shelf: &mut Shelf<'_>, book: &Book<'_>) -> Result<()> {
    let old = shelf.used();
    let new = book.known.used;
    if new <= old {
        return Ok(());
    }
    let Some(segment) = book.bytes.get(old..new) else {
        return Err(too_large(shelf.path));
    };
    add_segment(rt, shelf.path, shelf.kept, segment).context(shelf.path)?;
    shelf.kept = Some(new);
    Ok(())
}

// Whether a call was refused, by its answer's number, only since the program has less memory than the journal may fill, or than document
// 01's log.
pub fn is_short(no: u32, desk: &Desk<'_>) -> bool {
    no == Refusal::NoRoom.code() && desk.book.bytes.len() < desk.shelf.room
        || is_log_short(no, desk.lent.log.len())
}

// The same of a log of so many numbers alone.
pub fn is_log_short(no: u32, log: usize) -> bool {
    no == Refusal::LogFull.code() && log < MAX_ENTRIES * ENTRY
}
