ghost use Rattle.std.specs.Prelude.{◌≡◌, ◌+◌, length};
ghost use Rattle.journal.specs.Append.{segment, append};
ghost use Rattle.appending.specs.Takes.{Writable, with_segment};
ghost use Rattle.appending.specs.Outcome.{appended_to};

use crate::takes::takes;
use journal::entry::{ENTRY_BYTES, TRAILER_BYTES};
use rules::refusal::Refusal;
use valid::valid::segments;
use write_entry::bytes::put_bytes;
use write_entry::entry::put_trailer;

// Entries as the segment of this number.
fn write_segment(buffer: &mut [u8], used: usize, entries: &[u8], number: usize)
    requires { Writable (length buffer.old) used (length entries.now) number }
    ensures { buffer.new ≡ with_segment buffer.old used (segment number entries.now) }
{
    let end = used + entries.len();
    put_bytes(buffer, used, entries);
    let count = entries.len() / ENTRY_BYTES;
    put_trailer(buffer, end, number as u32, count as u32);
}

// The journal's length afterwards. "12 when the journal isn't valid or wouldn't be with it, then 16 NO_ROOM exactly when it is longer than
// the room left." The journal is a buffer and how much of it is used, as in C's `meter_append` and in the clause's `append`.
pub fn append(buffer: &mut [u8], used: usize, entries: &[u8]) -> Result<usize, Refusal>
    ensures { appended_to used result buffer.new ≡ append buffer.old used entries.now }
{
    if !takes(buffer, used, entries) {
        return Err(Refusal::BadJournal);
    }
    if buffer.len() - used < entries.len() + TRAILER_BYTES {
        return Err(Refusal::NoRoom);
    }
    let number = segments(&buffer[..used]);
    write_segment(buffer, used, entries, number);
    Ok(used + entries.len() + TRAILER_BYTES)
}
