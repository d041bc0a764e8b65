// The entries since a snapshot, read newest first.
ghost use Rattle.std.specs.Prelude.{◌≡◌, ◌-◌, ◌≤◌};
ghost use Rattle.rules.specs.Rules.{newest_first, undoable};
ghost use Rattle.rollback.specs.Since.{Logged, reached_before};

use parts::entries::entry_at;
use rules::table::UndoLog;

// How many keys there were before what an entry tells of, if it can be undone where `count` keys are left: a new row has to be the
// last, a changed row has to be there.
fn count_before(entry: UndoLog, count: u32) -> Option<u32>
    ensures { result ≡ reached_before entry count }
{
    match entry {
        UndoLog::NewElem(key) if count.checked_sub(1) == Some(key) => Some(key),
        UndoLog::SetElem(key, _) if key < count => Some(count),
        UndoLog::NewElem(_) | UndoLog::SetElem(_, _) | UndoLog::Unknown => None,
    }
}

// Whether the entries from `base` up to `used` can all be undone, from `count` keys down to `keys`.
pub fn undoable(log: &[u32], base: u32, used: u32, keys: u32, count: u32) -> bool
    requires base_le_used { base ≤ used }
    requires logged { Logged used log.now }
    ensures { result ≡ undoable keys count (newest_first log.now base (used - base)) }
{
    let mut reached = count;
    for i in (base..used).rev() {
        let Some(before) = count_before(entry_at(log, i), reached) else {
            return false;
        };
        reached = before;
    }
    reached == keys
}
