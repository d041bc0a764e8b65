// Document 02, Q-1: what the journal's entries are.

// An entry of the journal. `NoEntry` is what bytes of no known kind, or with a number where none is used, read as. It is a case of the
// entry and no `None` beside it: `Journal.entries_at` lists what stands at each place, `put_entry` writes any of them, and an
// `Option` would have those two, and the theorems over them, ask for more than they do.
#[derive(Clone, Copy)]
pub enum Entry {
    EntryNew(u32, u64),
    EntryPost(u32, u32, u64),
    EntryJoin(u32, u32),
    EntrySnapshot,
    EntryRollback,
    EntryCommit,
    NoEntry,
}

// "kind (1 new, 2 post, 3 join, 4 snapshot, 5 rollback, 6 commit)". They are numbers, as they stand in the bytes: `Entry` is the enum of
// the kinds, and a second one, of the kinds alone, would have a case for each of its cases and a number for each besides.
pub const ENTRY_NEW: u32 = 1;

pub const ENTRY_POST: u32 = 2;

pub const ENTRY_JOIN: u32 = 3;

pub const ENTRY_SNAPSHOT: u32 = 4;

pub const ENTRY_ROLLBACK: u32 = 5;

pub const ENTRY_COMMIT: u32 = 6;

// How many bytes an entry has, and a trailer.
pub const ENTRY_BYTES: usize = 24;

pub const TRAILER_BYTES: usize = 12;

// "Segments hold 1 to 2048 entries"
pub const SEGMENT: usize = 2048;
