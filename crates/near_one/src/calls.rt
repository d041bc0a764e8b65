ghost use Rattle.std.specs.Prelude.{◌≡◌, ◌<◌};
ghost use Rattle.rules.specs.Rules.{rows_seen, log_seen};
ghost use Rattle.roots.specs.Near.{near_of};
ghost use Rattle.decisions.specs.Sorted.{walk_call};
ghost use Rattle.decisions.specs.Decided.{DecidedAnyhow};
ghost use Rattle.decisions.specs.declared.sorted.WalkCall.TheVariants.{One};

use decisions::decision::Decision;
use decisions::good::GoodTable;
use decisions::sorted::WalkCall;
use decisions::todo::{from_verdict, refused};
use one_walk::plan::one_plan;
use plans::verdict::OneCall;
use roots::near::{Near, near_root};
use rules::refusal::Refusal;

// Where the walk of a live key leads, if it has at most one redirect.
fn near_walk(table: GoodTable<'_>, key: u32) -> Option<Near>
    requires { key < table.head.count }
    ensures { let t = table.entry in
        result ≡ near_of (rows_seen t.seen).parents t.head.count key }
{
    near_root(table.live(), key)
}

pub fn near_one(table: GoodTable<'_>, key: u32, call: OneCall) -> Decision
    ensures { let t = table.entry in
        DecidedAnyhow (rows_seen t.seen) (log_seen t.seen) t.head (walk_call (One key call)) result }
{
    let GoodTable { seen, head } = table;
    if key >= head.count {
        return Decision::Near(refused(Refusal::NoKey, head));
    }
    let Some(near) = near_walk(table, key) else {
        return Decision::Far(WalkCall::One(key, call));
    };
    let plan = one_plan(seen, call, near.root, near.steps);
    Decision::Near(from_verdict(table.fitted(Ok(plan), 0), head))
}
