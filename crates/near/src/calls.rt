// Calls whose walks have at most one redirect, as nearly all have: nothing is rewritten and no path is kept.
ghost use Rattle.rules.specs.Rules.{rows_seen, log_seen};
ghost use Rattle.decisions.specs.Sorted.{walk_call};
ghost use Rattle.decisions.specs.Decided.{DecidedAnyhow};
ghost use Rattle.decisions.specs.declared.sorted.WalkCall.TheVariants.{Two};

use decisions::decision::Decision;
use decisions::good::GoodTable;
use decisions::sorted::WalkCall;
use decisions::todo::{from_verdict, refused};
use near_one::calls::near_one;
use plans::verdict::TwoCall;
use roots::near::near_root;
use rules::refusal::Refusal;
use two_walks::plan::two_plan;

fn near_two(table: GoodTable<'_>, a: u32, b: u32, call: TwoCall) -> Decision
    ensures { let t = table.entry in
        DecidedAnyhow (rows_seen t.seen) (log_seen t.seen) t.head (walk_call (Two a call b)) result }
{
    let GoodTable { seen, head } = table;
    if a >= head.count || b >= head.count {
        return Decision::Near(refused(Refusal::NoKey, head));
    }
    let live = table.live();
    let Some(first) = near_root(live, a) else {
        return Decision::Far(WalkCall::Two(a, call, b));
    };
    let Some(second) = near_root(live, b) else {
        return Decision::Far(WalkCall::Two(a, call, b));
    };
    let steps = first.steps + second.steps;
    let plan = two_plan(seen, call, first.root, second.root, steps);
    Decision::Near(from_verdict(table.fitted(plan, 0), head))
}

// A call that walks, decided where its walks are near.
pub fn near_walk(table: GoodTable<'_>, call: WalkCall) -> Decision
    ensures { let t = table.entry in
        DecidedAnyhow (rows_seen t.seen) (log_seen t.seen) t.head (walk_call call) result }
{
    match call {
        WalkCall::One(key, what) => near_one(table, key, what),
        WalkCall::Two(a, what, b) => near_two(table, a, b, what),
    }
}
