ghost use Rattle.std.specs.Prelude.{◌≡◌};
ghost use Rattle.appending.specs.Takes.{takes, fills_by};

use journal::entry::{ENTRY_BYTES, SEGMENT};
use rules::numbers::WORD;
use valid::valid::{admits, segments};
use valid::window::NOTHING;

// "Segments hold 1 to 2048 entries"
fn fills(long: usize) -> bool
    ensures { result ≡ fills_by long }
{
    let count = long / ENTRY_BYTES;
    long == ENTRY_BYTES * count && (1..=SEGMENT).contains(&count)
}

// Whether bytes can be appended. What is to be appended says how many snapshots may be open before it, and the journal is then read once.
pub fn takes(buffer: &[u8], used: usize, entries: &[u8]) -> bool
    ensures { result ≡ takes buffer.now used entries.now }
{
    if used > buffer.len() || !fills(entries.len()) {
        return false;
    }
    let before = &buffer[..used];
    let window = NOTHING.narrow_all(entries, 0, entries.len() / ENTRY_BYTES);
    (segments(before) as u64) < WORD && admits(before, window)
}
