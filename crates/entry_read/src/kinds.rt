// The kinds of a valid journal's entries, one after the other from the front.
ghost use Rattle.std.specs.Prelude.{◌≡◌, true, map};
ghost use Rattle.std.specs.Iterator.{YieldsFirst, item_count};
ghost use Rattle.journal.specs.Journal.{journal_of, valid};
ghost use Rattle.journal.specs.Append.{entries_of};
ghost use Rattle.entry_read.specs.Left.{entry_kind, kinds_from, Left};

use crate::walk::past_trailers;
use journal::entry::ENTRY_BYTES;
use little_endian::read::u32_at;

// What is left of a valid journal, as in `Entries`, but of each entry only its kind, as a number. Who asks for no more is handed no `Entry`: to
// make one, the compiled code jumps on the kind (docs/BENCHMARKS.md, 'The journal').
#[derive(Drop)]
pub struct Kinds<'a> {
    bytes: &'a [u8],
    at: usize,
}

impl<'a> Kinds<'a> {
    // All of them.
    pub fn new(bytes: &'a [u8]) -> Self
        requires { valid bytes.now ≡ true }
        ensures left { Left result.bytes.now result.at }
        ensures all { kinds_from result.bytes.now result.at ≡ map entry_kind (entries_of (journal_of bytes.now)) }
    {
        Kinds { bytes, at: 0 }
    }
}

impl<'a> Iterator for Kinds<'a> {
    type Item = u32;

    ghost can_next = { λ s. Left s.bytes.now s.at };

    ghost next_gives = { YieldsFirst (λ s. kinds_from s.bytes.now s.at) };

    ghost remaining = { item_count (λ s. kinds_from s.bytes.now s.at) };

    fn next(&mut self) -> Option<u32> {
        let at = past_trailers(self.bytes, self.at);
        if at >= self.bytes.len() {
            return None;
        }
        let kind = u32_at(self.bytes, at);
        self.at = at + ENTRY_BYTES;
        Some(kind)
    }
}
