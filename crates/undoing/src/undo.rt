// The entries since a snapshot, undone newest first.
ghost use Rattle.std.specs.Prelude.{◌≡◌, ◌-◌, ◌≤◌};
ghost use Rattle.rules.specs.Rules.{entry_at, newest_first, undo, rows_in, log_in, SameParts};
ghost use Rattle.parts.specs.Bounds.{InLog};
ghost use Rattle.rollback.specs.Since.{Logged, Reversible};

use rules::table::{Lent, UndoLog};
use snapshot_vec::update::reverse;

// Entry `i` of the lent log, by value.
fn entry_at(lent: &Lent<'_>, i: u32) -> UndoLog
    requires { InLog i (log_in lent.now) }
    ensures { result ≡ entry_at (log_in lent.now) i }
{
    parts::entries::entry_at(lent.log, i)
}

// Undoes the entries from `base` up to `used`.
pub fn undo(lent: &mut Lent<'_>, base: u32, used: u32)
    requires base_le_used { base ≤ used }
    requires logged { Logged used (log_in lent.old) }
    requires reversible { Reversible (rows_in lent.old) (newest_first (log_in lent.old) base (used - base)) }
    ensures same_parts { SameParts lent.old lent.new }
    ensures rows { rows_in lent.new ≡ undo (rows_in lent.old) (newest_first (log_in lent.old) base (used - base)) }
    ensures log { log_in lent.new ≡ log_in lent.old }
{
    for i in (base..used).rev() {
        let entry = entry_at(lent, i);
        reverse(lent, entry);
    }
}
