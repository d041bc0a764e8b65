ghost use Rattle.std.specs.Prelude.{◌≡◌, ◌+◌, ◌≤◌, length};
ghost use Rattle.kit.specs.Names.{sets};
ghost use Rattle.journal.specs.Numbers.{SEGMENT};
ghost use Rattle.journal.specs.Entry.{fields, entry_bytes};
ghost use Rattle.journal.specs.Journal.{trailer_bytes, trailer_of};
ghost use Rattle.write_entry.specs.Fields.{field_bytes};

use crate::bytes::put;
use journal::entry::{
    ENTRY_COMMIT, ENTRY_JOIN, ENTRY_NEW, ENTRY_POST, ENTRY_ROLLBACK, ENTRY_SNAPSHOT, Entry,
};

// "kind .., key a, key b, owner (0 for none), each 32 bits, amount 64 bits"
#[derive(Clone, Copy)]
pub struct Fields {
    pub kind: u32,
    pub a: u32,
    pub b: u32,
    pub owner: u32,
    pub amount: u64,
}

const UNUSED: Fields = Fields {
    kind: 0,
    a: 0,
    b: 0,
    owner: 0,
    amount: 0,
};

// Of an entry whose kind is all that it has.
fn bare(kind: u32) -> Fields
    ensures { field_bytes result ≡ fields kind 0 0 0 0 }
{
    Fields { kind, ..UNUSED }
}

// "New uses owner and amount, post also key a, join both keys; unused fields are 0."
impl From<Entry> for Fields {
    ghost from_gives = { λ entry f. field_bytes f ≡ entry_bytes entry };

    fn from(entry: Entry) -> Fields {
        match entry {
            Entry::EntryNew(owner, amount) => Fields {
                kind: ENTRY_NEW,
                owner,
                amount,
                ..UNUSED
            },
            Entry::EntryPost(a, owner, amount) => Fields {
                kind: ENTRY_POST,
                a,
                owner,
                amount,
                ..UNUSED
            },
            Entry::EntryJoin(a, b) => Fields {
                kind: ENTRY_JOIN,
                a,
                b,
                ..UNUSED
            },
            Entry::EntrySnapshot => bare(ENTRY_SNAPSHOT),
            Entry::EntryRollback => bare(ENTRY_ROLLBACK),
            Entry::EntryCommit => bare(ENTRY_COMMIT),
            Entry::NoEntry => UNUSED,
        }
    }
}

// Writes an entry from a place on.
pub fn put_entry(bytes: &mut [u8], at: usize, entry: Entry)
    requires { at + 24 ≤ length bytes.old }
    ensures { bytes.new ≡ sets bytes.old at (entry_bytes entry) }
{
    let fields = Fields::from(entry);
    put(bytes, at, fields.kind.to_le_bytes());
    put(bytes, at + 4, fields.a.to_le_bytes());
    put(bytes, at + 8, fields.b.to_le_bytes());
    put(bytes, at + 12, fields.owner.to_le_bytes());
    put(bytes, at + 16, fields.amount.to_le_bytes());
}

// "the distance back from the trailer's first byte to the segment's first, the entry count, the segment number from 0"
pub fn put_trailer(bytes: &mut [u8], at: usize, number: u32, count: u32)
    requires at_in_bounds { at + 12 ≤ length bytes.old }
    requires count_bound { count ≤ SEGMENT }
    ensures { bytes.new ≡ sets bytes.old at (trailer_bytes (trailer_of number count)) }
{
    put(bytes, at, (24 * count).to_le_bytes());
    put(bytes, at + 4, count.to_le_bytes());
    put(bytes, at + 8, number.to_le_bytes());
}
