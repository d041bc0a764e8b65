// How much of the memory is lent to the table: what the words ask for, or one more than document 01's limits where they ask for more
// than that, and never more than there is.
ghost use Rattle.std.specs.Prelude.{◌*◌, ◌≤◌, vec_len};

use rules::numbers::{ENTRY, MAX_ENTRIES, MAX_ROWS};
use storage::memory::Memory;

// Rows.
pub fn rows_lent(asked: u64, memory: &Memory) -> usize
    ensures upper_bound { result ≤ 65537 }
    ensures upper_bound_2 { result ≤ vec_len memory.now.parents }
    ensures result_bound { result * 2 ≤ vec_len memory.now.crowns }
    ensures upper_bound_3 { result ≤ vec_len memory.now.amounts }
{
    let crowned = memory.crowns.len() / 2;
    let whole = memory.parents.len().min(crowned).min(memory.amounts.len());
    whole.min(asked as usize).min(MAX_ROWS + 1)
}

// Entries of the log that are wanted, and those of them that there are.
pub fn entries_wanted(asked: u64) -> usize
    ensures { result ≤ 1048577 }
{
    (asked as usize).min(MAX_ENTRIES + 1)
}

pub fn entries_lent(wanted: usize, log: usize) -> usize
    ensures upper_bound { result ≤ wanted }
    ensures result_bound { result * 7 ≤ log }
{
    wanted.min(log / ENTRY)
}
