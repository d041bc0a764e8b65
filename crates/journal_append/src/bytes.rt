ghost use Rattle.std.specs.Prelude.{◌≤◌, length, IfSome};

use anyhow::{Context, Result};
use appending::append::append;
use journal_file::add::add_segment;
use rules::refusal::Refusal;
use std::process::ExitCode;
use std::rt::Files;
use verb_journal::named::{Shelf, too_large};
use verb_words::answer::end_with;

// How much of the buffer is lent: the room, or all of a journal that is longer already.
pub fn lent(used: usize, room: usize, most: usize) -> usize
    requires { used ≤ most }
    ensures { result ≤ most }
{
    room.clamp(used, most)
}

// The segment made behind the journal's bytes, and then on disk.
pub fn append_bytes(
    rt: &(impl Files + Print),
    shelf: Shelf<'_>,
    entries: &[u8],
    buffer: &mut [u8],
) -> Result<ExitCode>
    requires { IfSome shelf.kept (λ used. used ≤ length buffer.old) }
{
    let used = shelf.used();
    let most = lent(used, shelf.room, buffer.len());
    match append(&mut buffer[..most], used, entries) {
        Ok(end) => {
            let segment = &buffer[used..end];
            add_segment(rt, shelf.path, shelf.kept, segment).context(shelf.path)?;
            end_with(rt, 0, end as u64)
        }
        // Here less was lent than the room that was asked for: that is the program's own.
        Err(Refusal::NoRoom) if most < shelf.room => Err(too_large(shelf.path)),
        Err(why) => end_with(rt, why.code(), used as u64),
    }
}
