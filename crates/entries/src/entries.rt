ghost use Rattle.std.specs.Prelude.{◌≡◌, ◌+◌, ◌≤◌, length};
ghost use Rattle.journal.specs.Entry.{entry_of, read_entry};
ghost use Rattle.entries.specs.Most.{most_of, is_kind, is_entry};

use journal::entry::{ENTRY_COMMIT, ENTRY_JOIN, ENTRY_NEW, ENTRY_POST};
use little_endian::read::{u32_at, u64_at};

// How large a number may be that entries of two kinds alone use.
fn most(kind: u32, one: u32, other: u32) -> u64
    ensures { result ≡ most_of kind one other }
{
    if kind == one || kind == other {
        u64::MAX
    } else {
        0
    }
}

fn is_kind(kind: u32) -> bool
    ensures { result ≡ is_kind kind }
{
    (ENTRY_NEW..=ENTRY_COMMIT).contains(&kind)
}

// Whether five numbers are an entry. Q-1: "New uses owner and amount, post also key a, join both keys; unused fields are 0." The tests go
// by limits, so that entries of all kinds take the same way. They are no struct, as `Fields` of `write_entry` is for a writer's fields:
// they are read, tested and not kept.
pub fn is_entry(kind: u32, a: u32, b: u32, owner: u32, amount: u64) -> bool
    ensures { result ≡ is_entry (entry_of kind a b owner amount) }
{
    let value = most(kind, ENTRY_NEW, ENTRY_POST);
    u64::from(a) <= most(kind, ENTRY_POST, ENTRY_JOIN)
        && u64::from(b) <= most(kind, ENTRY_JOIN, ENTRY_JOIN)
        && u64::from(owner) <= value
        && amount <= value
        && is_kind(kind)
}

// Whether an entry stands at a place.
pub fn is_entry_at(bytes: &[u8], at: usize) -> bool
    requires { at + 24 ≤ length bytes.now }
    ensures { result ≡ is_entry (read_entry bytes.now at) }
{
    is_entry(
        u32_at(bytes, at),
        u32_at(bytes, at + 4),
        u32_at(bytes, at + 8),
        u32_at(bytes, at + 12),
        u64_at(bytes, at + 16),
    )
}
