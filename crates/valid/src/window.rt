// How many snapshots may be open before an entry. This is worked out from the journal's end: what follows an entry says how many may be open
// after it, and so before it.
ghost use Rattle.std.specs.Prelude.{◌≡◌, ◌+◌, ◌*◌, ◌-◌, ◌≤◌, ◌<◌, ◌^◌, length};
ghost use Rattle.journal.specs.Entry.{read_entry, entries_at};
ghost use Rattle.valid.specs.Window.{opens_of, closes_of, moved, Small, narrow, narrowed};

use entries::entries::is_entry_at;
use journal::entry::{ENTRY_BYTES, ENTRY_SNAPSHOT};
use little_endian::read::u32_at;

// What follows closes `least` snapshots that are open before it, and has `rise` more open than those at some place.
#[derive(Clone, Copy)]
pub struct Window {
    pub least: u64,
    pub rise: u64,
}

// Where nothing follows.
pub const NOTHING: Window = Window { least: 0, rise: 0 };

// Before what is no entry: more would follow than are ever open.
const NEVER: Window = Window { least: 0, rise: 33 };

impl Window {
    // Before an entry of this kind. Kinds above a snapshot's close one.
    fn moved(self, kind: u32) -> Window
        requires { (self.least < 2 ^ 64 - 1) × (self.rise < 2 ^ 64 - 1) }
        ensures { result ≡ moved (opens_of kind) (closes_of kind) self }
    {
        let opens = u64::from(kind == ENTRY_SNAPSHOT);
        let closes = u64::from(kind > ENTRY_SNAPSHOT);
        Window {
            least: self.least.saturating_sub(opens) + closes,
            rise: self.rise.saturating_sub(closes) + opens,
        }
    }

    // Before the entry at a place.
    fn narrow_at(self, bytes: &[u8], at: usize) -> Window
        requires { (at + 24 ≤ length bytes.now) × Small self (length bytes.now - (at + 24)) }
        ensures { result ≡ narrow (read_entry bytes.now at) self }
    {
        if is_entry_at(bytes, at) {
            self.moved(u32_at(bytes, at))
        } else {
            NEVER
        }
    }

    // Before so many entries from a place on, the last one first.
    pub fn narrow_all(self, bytes: &[u8], start: usize, count: usize) -> Window
        requires { (start + 24 * count ≤ length bytes.now) × Small self (length bytes.now - (start + 24 * count)) }
        ensures { result ≡ narrowed (entries_at count bytes.now start) self }
    {
        let mut now = self;
        for entry in (0..count).rev() {
            now = now.narrow_at(bytes, start + entry * ENTRY_BYTES);
        }
        now
    }
}
