ghost use Rattle.std.specs.Prelude.{◌≡◌, true, ◌+◌, ◌≤◌, length};
ghost use Rattle.journal.specs.Entry.{read_entry};
ghost use Rattle.entries.specs.Most.{is_entry};

use journal::entry::{ENTRY_JOIN, ENTRY_NEW, ENTRY_POST, ENTRY_ROLLBACK, ENTRY_SNAPSHOT, Entry};
use little_endian::read::{u32_at, u64_at};

// The entry at a place where one is known to stand: its kind says which numbers it uses, and the others aren't looked at.
pub fn entry_at(bytes: &[u8], at: usize) -> Entry
    requires at_in_bounds { at + 24 ≤ length bytes.now }
    requires at_value { is_entry (read_entry bytes.now at) ≡ true }
    ensures { result ≡ read_entry bytes.now at }
{
    match u32_at(bytes, at) {
        ENTRY_NEW => Entry::EntryNew(u32_at(bytes, at + 12), u64_at(bytes, at + 16)),
        ENTRY_POST => Entry::EntryPost(
            u32_at(bytes, at + 4),
            u32_at(bytes, at + 12),
            u64_at(bytes, at + 16),
        ),
        ENTRY_JOIN => Entry::EntryJoin(u32_at(bytes, at + 4), u32_at(bytes, at + 8)),
        ENTRY_SNAPSHOT => Entry::EntrySnapshot,
        ENTRY_ROLLBACK => Entry::EntryRollback,
        _ => Entry::EntryCommit,
    }
}
