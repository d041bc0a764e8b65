// How many snapshots are open at the end of a valid journal.
ghost use Rattle.std.specs.Prelude.{◌≡◌, true};
ghost use Rattle.journal.specs.Journal.{valid};
ghost use Rattle.counting.specs.Counted.{open_past, may_pass, open_at_end};

use entry_read::kinds::Kinds;
use journal::entry::ENTRY_SNAPSHOT;

// After an entry of this kind. Kinds above a snapshot's close one. Two comparisons, and no jump on the kind: which comes next can't be foretold
// (docs/BENCHMARKS.md, 'The journal').
fn open_after(before: u32, kind: u32) -> u32
    requires { may_pass before kind ≡ true }
    ensures { result ≡ open_past before kind }
{
    before + u32::from(kind == ENTRY_SNAPSHOT) - u32::from(kind > ENTRY_SNAPSHOT)
}

// A valid journal, entry by entry from the front.
pub fn open_at_end(bytes: &[u8]) -> u32
    requires { valid bytes.now ≡ true }
    ensures { result ≡ open_at_end bytes.now }
{
    let mut so_far = 0;
    for kind in Kinds::new(bytes) {
        so_far = open_after(so_far, kind);
    }
    so_far
}
