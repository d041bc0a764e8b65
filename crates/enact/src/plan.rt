// `rewrites/src/walk.rt` says why no type holds what the clauses ask, `Sound` and `Ready`.
ghost use Rattle.std.specs.Prelude.{◌≡◌, [], ◌∷◌, ◌++◌, ◌+◌, ◌<◌, length};
ghost use Rattle.rules.specs.Rules.{rows_in, redirect, crown, puts};
ghost use Rattle.roots.specs.Trail.{walk_of, compressed, Sound};
ghost use Rattle.plans.specs.Plans.{finish_of, and_then, InsideEnd};
ghost use Rattle.parts.specs.Ready.{Ready};
ghost use Rattle.snapshot_vec.specs.Memory.{memory_by, SameVec};

use plans::verdict::Finish;
use rewrites::walk::rewrite;
use roots::path::Trail;
use rules::table::Value;
use snapshot_vec::update::SnapshotVec;

// Redirects one root to another, which gets a rank and a value: ena's `redirect_root`.
#[tactic(auto, unfolding(rules::specs::Write::puts))]
fn redirect_root(
    values: &mut SnapshotVec<'_, '_>,
    count: u32,
    new_rank: u32,
    old_root: u32,
    new_root: u32,
    new_value: Value,
)
    requires ready { Ready count 2 (memory_by values.old) }
    requires old_root_lt_count { old_root < count }
    requires new_root_lt_count { new_root < count }
    ensures same_vec { SameVec values.old values.new }
    ensures value { memory_by values.new ≡ puts (memory_by values.old) (redirect old_root new_root ∷ crown new_root new_rank new_value ∷ []) }
{
    values.redirect(old_root, new_root);
    values.crown(new_root, new_rank, new_value);
}

// Writes what stands at the end of a plan, at the roots. Inlined at both its callers: then no pointer to the lent parts as a struct is
// handed on where a call is carried out, and they stay in registers (docs/BENCHMARKS.md).
#[tactic(auto, unfolding(rules::specs::Write::puts))]
#[inline(always)]
pub fn finish(values: &mut SnapshotVec<'_, '_>, count: u32, end: Finish)
    requires ready { Ready count (length (finish_of end)) (memory_by values.old) }
    requires inside_end { InsideEnd count end }
    ensures same_vec { SameVec values.old values.new }
    ensures value { memory_by values.new ≡ puts (memory_by values.old) (finish_of end) }
{
    match end {
        Finish::Nothing => {}
        Finish::Crown(key, rank, value) => values.crown(key, rank, value),
        Finish::Unite(old, new, rank, value) => redirect_root(values, count, rank, old, new, value),
    }
}

// Two walks, either of which may be idle, and then the end at the roots.
pub fn enact(values: &mut SnapshotVec<'_, '_>, count: u32, first: Trail, second: Trail, end: Finish)
    requires ready { Ready count (length (walk_of first) + (length (walk_of second) + length (finish_of end))) (memory_by values.old) }
    requires sound { Sound (rows_in values.old.lent.now).parents count first }
    requires sound_2 { Sound (compressed first (rows_in values.old.lent.now).parents) count second }
    requires inside_end { InsideEnd count end }
    ensures same_vec { SameVec values.old values.new }
    ensures value { memory_by values.new ≡ puts (memory_by values.old) (and_then (walk_of first ++ walk_of second) end) }
{
    rewrite(values, count, first);
    rewrite(values, count, second);
    finish(values, count, end);
}
