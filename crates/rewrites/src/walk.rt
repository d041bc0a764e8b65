// That a walk can be made and that its entries fit (`Sound`, `Ready`) are clauses and no fact of a type: they are of the walk, and of how many
// entries are still to be written, which are fewer after each.
ghost use Rattle.std.specs.Prelude.{ℕ, ◌≡◌, ◌-◌};
ghost use Rattle.rules.specs.Rules.{rows_in, rows_lent, memory_lent, puts};
ghost use Rattle.roots.specs.Trail.{passed_of, walk_of, Sound};
ghost use Rattle.roots.specs.Saves.{saved, saves};
ghost use Rattle.parts.specs.Bounds.{InRows, InLog};
ghost use Rattle.parts.specs.Ready.{Ready};
ghost use Rattle.snapshot_vec.specs.Memory.{memory_by, SameVec};

use roots::get::inlined_get_root_key;
use roots::path::Trail;
use rules::numbers::MAX_REDIRECTS;
use rules::table::{Seen, UndoLog};
use snapshot_vec::update::SnapshotVec;

// Logs row `i` as it stands. Answers how much of the log is used then.
#[tactic(auto, using(crate::proofs::LogLaws::row_saved))]
fn log_row(
    parents: &[u32],
    crowns: &[u32],
    amounts: &[u64],
    log: &mut [u32],
    used: u32,
    i: u32,
) -> u32
    requires in_rows { InRows i (rows_lent parents.now crowns.now amounts.now) }
    requires in_log { InLog used log.old }
    ensures { let m = memory_lent parents.now crowns.now amounts.now in
        (opened : ℕ) → (opened ≡ 0 → ⊥) → m log.new opened result ≡ saved i (m log.old opened used) }
{
    let seen = Seen {
        parents,
        crowns,
        amounts,
        log: &*log,
    };
    let old = rows::rows::row_at(seen, i);
    parts::entries::put_entry(log, used, UndoLog::SetElem(i, old));
    used + 1
}

// Logs the rows that a walk will rewrite, the nearest to the root first, if a snapshot is open. Answers how much of the log is used then.
#[tactic(auto, using(crate::proofs::LogLaws::saves_shut))]
fn log_walk(
    parents: &[u32],
    crowns: &[u32],
    amounts: &[u64],
    log: &mut [u32],
    count: u32,
    opened: u32,
    used: u32,
    trail: Trail,
) -> u32
    requires sound { Sound parents.now count trail }
    requires ready { Ready count (trail.steps - 1) (memory_lent parents.now crowns.now amounts.now log.old opened used) }
    ensures { let m = memory_lent parents.now crowns.now amounts.now in
        m log.new opened result ≡ saves (passed_of trail) (m log.old opened used) }
{
    if opened == 0 {
        return used;
    }
    let mut more = used;
    for i in (0..trail.steps.saturating_sub(1)).rev() {
        more = log_row(parents, crowns, amounts, log, more, trail.nodes[i]);
    }
    more
}

// Rewrites the rows of a walk to its root, each logged first where a snapshot is open. Of the four parts it writes the parents and the log:
// so the others may be lent to be read. Answers how much of the log is used then.
pub fn rewrite_parts(
    parents: &mut [u32],
    crowns: &[u32],
    amounts: &[u64],
    log: &mut [u32],
    count: u32,
    opened: u32,
    used: u32,
    trail: Trail,
) -> u32
    requires sound { Sound parents.old count trail }
    requires ready { Ready count (trail.steps - 1) (memory_lent parents.old crowns.now amounts.now log.old opened used) }
    ensures { memory_lent parents.new crowns.now amounts.now log.new opened result
        ≡ puts (memory_lent parents.old crowns.now amounts.now log.old opened used) (walk_of trail) }
{
    if trail.steps < 2 {
        return used;
    }
    let more = log_walk(parents, crowns, amounts, log, count, opened, used, trail);
    inlined_get_root_key(parents, count, MAX_REDIRECTS, trail.nodes[0]);
    more
}

// The same of rows that are logged as they are written.
pub fn rewrite(values: &mut SnapshotVec<'_, '_>, count: u32, trail: Trail)
    requires sound { Sound (rows_in values.old.lent.now).parents count trail }
    requires ready { Ready count (trail.steps - 1) (memory_by values.old) }
    ensures same_vec { SameVec values.old values.new }
    ensures value { memory_by values.new ≡ puts (memory_by values.old) (walk_of trail) }
{
    let opened = values.opened;
    let used = values.used;
    // All four are taken out of the struct before the first is lent: the checker covers no `&` of a part beside a `&mut` of another.
    let lent = &mut *values.lent;
    let parents = &mut *lent.parents;
    let crowns = &mut *lent.crowns;
    let amounts = &mut *lent.amounts;
    let log = &mut *lent.log;
    let more = rewrite_parts(parents, crowns, amounts, log, count, opened, used, trail);
    values.used = more;
}
