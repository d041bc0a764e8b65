ghost use Rattle.std.specs.Prelude.{◌≡◌, ◌+◌, ◌*◌, get_or};
ghost use Rattle.rules.specs.Rules.{ENTRY, old_at, entry_at, viewed};
ghost use Rattle.extract.specs.Numbers.{lent_at};

use parts::entries::Numbers;
use rules::numbers::ENTRY;
use rules::table::{Owner, Row, UndoLog};

// The part of a log from an entry to an entry; what lies past its end is left out.
pub fn part(log: &[u32], from: u32, to: u32) -> &[u32]
    ensures { result.now ≡ viewed log.now from to }
{
    let start = (from as usize * ENTRY).min(log.len());
    let end = (to as usize * ENTRY).min(log.len()).max(start);
    &log[start..end]
}

// A number of entry `i`, and 0 past the log's end: nothing is asked of a view, so it may end inside an entry.
fn number(log: &[u32], i: usize, word: usize) -> u32
    ensures { result ≡ get_or log.now (i * ENTRY + word) 0 }
{
    let at = i.saturating_mul(ENTRY).saturating_add(word);
    log.get(at).copied().unwrap_or(0)
}

// The old row of entry `i`.
fn old_of(log: &[u32], i: usize) -> Row
    ensures { result ≡ old_at log.now (i * ENTRY) }
{
    Row {
        parent: number(log, i, 2),
        rank: number(log, i, 3),
        owner: Owner::from(number(log, i, 4)),
        amount: parts::amounts::amount_of(number(log, i, 5), number(log, i, 6)),
    }
}

// The numbers of entry `i` as they are lent, whatever its kind.
pub fn lent_of(log: &[u32], i: usize) -> Numbers
    ensures { result ≡ lent_at log.now i }
{
    Numbers {
        kind: number(log, i, 0),
        key: number(log, i, 1),
        old: old_of(log, i),
    }
}

// Entry `i` by value: past the end it is of no known kind.
pub fn entry_of(log: &[u32], i: usize) -> UndoLog
    ensures { result ≡ entry_at log.now i }
{
    UndoLog::from(lent_of(log, i))
}
