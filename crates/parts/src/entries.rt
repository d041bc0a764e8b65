// Crate `extract` reads an entry of a slice of any length. These are no twins of it: here the entry lies in the log, by their `requires`,
// and no number is tested for its place on the way of a rollback.
ghost use Rattle.std.specs.Prelude.{◌≡◌, ◌+◌, ◌≤◌, length};
ghost use Rattle.rules.specs.Rules.{ENTRY, old_at, put_old, entry_at, put_entry};
ghost use Rattle.parts.specs.Bounds.{InLog};
ghost use Rattle.parts.specs.Numbers.{numbers_of, action_of};

use rules::numbers::{ENTRY, KIND_NEW, KIND_SET, KIND_UNKNOWN};
use rules::table::{Owner, Row, UndoLog};

// The old row of the entry that starts at `base`.
pub fn old_at(log: &[u32], base: usize) -> Row
    requires { base + ENTRY ≤ length log.now }
    ensures { result ≡ old_at log.now base }
{
    Row {
        parent: log[base + 2],
        rank: log[base + 3],
        owner: Owner::from(log[base + 4]),
        amount: crate::amounts::amount_of(log[base + 5], log[base + 6]),
    }
}

// Writes the old row of the entry that starts at `base`.
pub fn put_old(log: &mut [u32], base: usize, row: Row)
    requires { base + ENTRY ≤ length log.old }
    ensures { log.new ≡ put_old log.old base row }
{
    log[base + 2] = row.parent;
    log[base + 3] = row.rank;
    log[base + 4] = u32::from(row.owner);
    log[base + 5] = crate::amounts::low_of(row.amount);
    log[base + 6] = crate::amounts::high_of(row.amount);
}

// Entry `i` by value: the enum's own case where it is of no known kind. The match of kinds stands once more below, in `From<Numbers>`: here
// the old row is read of an entry that has one, there it is at hand.
pub fn entry_at(log: &[u32], i: u32) -> UndoLog
    requires { InLog i log.now }
    ensures { result ≡ entry_at log.now i }
{
    let base = i as usize * ENTRY;
    match log[base] {
        KIND_NEW => UndoLog::NewElem(log[base + 1]),
        KIND_SET => UndoLog::SetElem(log[base + 1], old_at(log, base)),
        _ => UndoLog::Unknown,
    }
}

// What an entry is written as: its kind, its key and the old row. The kind stays a number: C lends the log, and any may stand in it.
#[derive(Clone, Copy)]
pub struct Numbers {
    pub kind: u32,
    pub key: u32,
    pub old: Row,
}

// A new key's row fields are 0, and so are all of an unknown entry.
impl From<UndoLog> for Numbers {
    ghost from_gives = { λ entry numbers. numbers ≡ numbers_of entry };

    fn from(entry: UndoLog) -> Numbers {
        let nothing = Row {
            parent: 0,
            rank: 0,
            owner: Owner::Nobody,
            amount: 0,
        };
        let (kind, key, old) = match entry {
            UndoLog::NewElem(key) => (KIND_NEW, key, nothing),
            UndoLog::SetElem(key, old) => (KIND_SET, key, old),
            UndoLog::Unknown => (KIND_UNKNOWN, 0, nothing),
        };
        Numbers { kind, key, old }
    }
}

// What an entry's numbers say: the enum's own case where they are of no known kind.
impl From<Numbers> for UndoLog {
    ghost from_gives = { λ numbers entry. entry ≡ action_of numbers };

    fn from(numbers: Numbers) -> UndoLog {
        match numbers.kind {
            KIND_NEW => UndoLog::NewElem(numbers.key),
            KIND_SET => UndoLog::SetElem(numbers.key, numbers.old),
            _ => UndoLog::Unknown,
        }
    }
}

// Writes all of entry `i`.
pub fn put_entry(log: &mut [u32], i: u32, entry: UndoLog)
    requires { InLog i log.old }
    ensures { log.new ≡ put_entry log.old i entry }
{
    let base = i as usize * ENTRY;
    let numbers = Numbers::from(entry);
    log[base] = numbers.kind;
    log[base + 1] = numbers.key;
    put_old(log, base, numbers.old);
}
