// The entries of a valid journal, one after the other from the front.
ghost use Rattle.std.specs.Prelude.{◌≡◌, ◌≤◌, true, length};
ghost use Rattle.std.specs.Iterator.{YieldsFirst, item_count};
ghost use Rattle.journal.specs.Journal.{journal_of, valid};
ghost use Rattle.journal.specs.Append.{entries_of};
ghost use Rattle.entry_read.specs.Left.{entries_from, Left, Past};

use crate::read::entry_at;
use journal::entry::{ENTRY_BYTES, Entry, TRAILER_BYTES};
use little_endian::read::u32_at;

// The place of the next entry, or the end. An entry begins with its kind, and a trailer, which is passed over, with its distance, which is
// at least an entry's length, so what stands at a place says how far it is to the next one.
pub(crate) fn past_trailers(bytes: &[u8], from: usize) -> usize
    requires { Left bytes.now from }
    ensures { Past bytes.now from result }
{
    let mut at = from;
    while at < bytes.len() && u32_at(bytes, at) as usize >= ENTRY_BYTES {
        at += TRAILER_BYTES;
    }
    at
}

// What is left of a valid journal from a place on, at which an entry or a trailer begins or the bytes end.
#[derive(Drop)]
pub struct Entries<'a> {
    bytes: &'a [u8],
    at: usize,
}

impl<'a> Entries<'a> {
    // All of them.
    pub fn new(bytes: &'a [u8]) -> Self
        requires { valid bytes.now ≡ true }
        ensures left { Left result.bytes.now result.at }
        ensures all { entries_from result.bytes.now result.at ≡ entries_of (journal_of bytes.now) }
        ensures few { length (entries_from result.bytes.now result.at) ≤ length bytes.now }
    {
        Entries { bytes, at: 0 }
    }
}

impl<'a> Iterator for Entries<'a> {
    type Item = Entry;

    ghost can_next = { λ s. Left s.bytes.now s.at };

    ghost next_gives = { YieldsFirst (λ s. entries_from s.bytes.now s.at) };

    ghost remaining = { item_count (λ s. entries_from s.bytes.now s.at) };

    fn next(&mut self) -> Option<Entry> {
        let at = past_trailers(self.bytes, self.at);
        if at >= self.bytes.len() {
            return None;
        }
        let entry = entry_at(self.bytes, at);
        self.at = at + ENTRY_BYTES;
        Some(entry)
    }
}
