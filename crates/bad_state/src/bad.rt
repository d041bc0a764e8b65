ghost use Rattle.std.specs.Prelude.{◌≡◌, ◌||◌};
ghost use Rattle.rules.specs.Rules.{BAD-STATE, refusal, rows_in, log_in, rows_seen, log_seen, sizes, sizes_of, bad, stray};
ghost use Rattle.undo_log.specs.Settled.{settled};

use rules::numbers::{CROWN, ENTRY, MAX_ENTRIES, MAX_OPEN, MAX_ROWS};
use rules::refusal::Refusal;
use rules::table::{Head, Lent, Seen};
use undo_log::tokens::{Settled, refused};

// Whether the head, or the lengths of the four lent parts, are no table's: BAD_STATE.
#[tactic(auto, unfolding(rules::specs::Refusal::bad))]
pub fn bad_state(head: Head, parents: usize, crowns: usize, amounts: usize, log: usize) -> bool
    ensures { result ≡ bad (sizes parents crowns amounts log) head }
{
    parents > MAX_ROWS
        || log > MAX_ENTRIES * ENTRY
        || crowns != parents * CROWN
        || amounts != parents
        || log % ENTRY != 0
        || head.count as usize > parents
        || head.used as usize > log / ENTRY
        || head.open > MAX_OPEN
        || stray(head)
}

// The same of what is only read of the lent parts, and of what is lent.
pub fn bad_seen(head: Head, seen: Seen<'_>) -> bool
    ensures { result ≡ bad (sizes_of (rows_seen seen.entry) (log_seen seen.entry)) head }
{
    bad_state(
        head,
        seen.parents.len(),
        seen.crowns.len(),
        seen.amounts.len(),
        seen.log.len(),
    )
}

pub fn bad_lent(head: Head, lent: &Lent<'_>) -> bool
    ensures { result ≡ bad (sizes_of (rows_in lent.now) (log_in lent.now)) head }
{
    bad_seen(head, lent.seen())
}

// Whether entries are used with nothing open: all of BAD_STATE that a call can leave where there was none.
pub fn stray(head: Head) -> bool
    ensures { result ≡ stray head }
{
    head.open == 0 && head.used != 0
}

// Whether a table is bad after a call that left this head: as before, or where entries are used with nothing open.
pub fn bad_after(before: bool, head: Head) -> bool
    ensures { result ≡ (before || stray head) }
{
    before || stray(head)
}

// What is answered where it is.
pub fn refuse_bad(head: Head) -> Settled
    ensures { result ≡ settled (refusal BAD-STATE) head }
{
    refused(Refusal::BadState, head)
}
