ghost use Rattle.std.specs.Prelude.{◌≡◌, ◌++◌, false};
ghost use Rattle.rules.specs.Rules.{rows_in, log_in, memory_in, table_in, puts, sizes_of, bad, SameParts};
ghost use Rattle.undo_log.specs.Settled.{settled};
ghost use Rattle.roots.specs.Trail.{walk_of};
ghost use Rattle.plans.specs.Plans.{and_then};
ghost use Rattle.decisions.specs.Sorted.{walk_call, LiveKeys};
ghost use Rattle.decisions.specs.End.{ended_with, logs};
ghost use Rattle.decisions.specs.Decided.{Doable, FarCarried};

use decisions::decision::FarPlan;
use decisions::good::GoodTable;
use decisions::sorted::WalkCall;
use decisions::todo::with_used;
use enact::plan::enact;
use far::plan::far_plan;
use rules::table::{Head, Lent};
use snapshot_vec::update::SnapshotVec;
use undo_log::tokens::{Settled, refused};

// A plan carried out: its walks, and what stands at its end.
fn carry_out(lent: &mut Lent<'_>, head: Head, far: FarPlan) -> Settled
    requires { Doable (rows_in lent.old) (log_in lent.old) head far }
    ensures same_parts { SameParts lent.old lent.new }
    ensures value { ended_with (rows_in lent.new) (log_in lent.new) result
        ≡ logs (settled far.plan.answer head) (puts (memory_in lent.old head.«open» head.used) (and_then (walk_of far.first ++ walk_of far.second) far.plan.finish)) }
{
    let mut values = SnapshotVec {
        lent,
        opened: head.open,
        used: head.used,
    };
    enact(
        &mut values,
        head.count,
        far.first,
        far.second,
        far.plan.finish,
    );
    let settled = Settled {
        answer: far.plan.answer,
        head,
    };
    with_used(settled, values.used)
}

// A call on live keys, whatever its walks: planned, and then rewritten. That nothing is bad is a clause for the reason that stands at
// `table::call::call_good`.
pub fn far(lent: &mut Lent<'_>, head: Head, call: WalkCall) -> Settled
    requires head_value { bad (sizes_of (rows_in lent.old) (log_in lent.old)) head ≡ false }
    requires live_keys { LiveKeys head.count call }
    ensures same_parts { SameParts lent.old lent.new }
    ensures value { FarCarried (table_in lent.old) (table_in lent.new) head (walk_call call) result }
{
    let table = GoodTable {
        seen: lent.seen(),
        head,
    };
    match far_plan(table, call) {
        Err(why) => refused(why, head),
        Ok(far) => carry_out(lent, head, far),
    }
}
