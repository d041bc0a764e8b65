// Calls with a walk of two redirects or more: traced, and judged before anything is written.
ghost use Rattle.std.specs.Prelude.{◌≡◌, ◌-◌, ◌<◌};
ghost use Rattle.rules.specs.Rules.{rows_seen, log_seen};
ghost use Rattle.roots.specs.Trail.{Idle};
ghost use Rattle.decisions.specs.Sorted.{walk_call, LiveKeys};
ghost use Rattle.decisions.specs.Decided.{FarPlanned};
ghost use Rattle.decisions.specs.declared.sorted.WalkCall.TheVariants.{One, Two};

use decisions::decision::FarPlan;
use decisions::good::GoodTable;
use decisions::sorted::WalkCall;
use meeting::after::trace_after_into;
use one_walk::plan::one_plan;
use plans::verdict::{OneCall, TwoCall};
use roots::path::{Trail, trace_into};
use rules::refusal::Refusal;
use two_walks::plan::two_plan;

// A trail that leads nowhere, for the second walk of a call that walks once, and for a walk to be traced into. No `Option`: a trail of no
// steps is carried out as any other is, and rewrites nothing.
fn idle() -> Trail
    ensures { Idle result }
{
    Trail {
        steps: 0,
        nodes: [0u32; 17],
    }
}

fn far_one(table: GoodTable<'_>, key: u32, call: OneCall) -> Result<FarPlan, Refusal>
    requires { key < table.head.count }
    ensures { let t = table.entry in
        FarPlanned (rows_seen t.seen) (log_seen t.seen) t.head (walk_call (One key call)) result }
{
    let mut trail = idle();
    let Some(first) = trace_into(table.live(), key, &mut trail) else {
        return Err(Refusal::BrokenTable);
    };
    let steps = first.steps;
    let plan = one_plan(table.seen, call, first.nodes[steps], steps as u32);
    // All that a walk passed but the last is rewritten.
    let plan = table.fitted(Ok(plan), steps.saturating_sub(1))?;
    Ok(FarPlan {
        plan,
        first: *first,
        second: idle(),
    })
}

fn far_two(table: GoodTable<'_>, a: u32, b: u32, call: TwoCall) -> Result<FarPlan, Refusal>
    requires a_lt_count { a < table.head.count }
    requires b_lt_count { b < table.head.count }
    ensures { let t = table.entry in
        FarPlanned (rows_seen t.seen) (log_seen t.seen) t.head (walk_call (Two a call b)) result }
{
    let live = table.live();
    let mut from_a = idle();
    let mut from_b = idle();
    let Some(first) = trace_into(live, a, &mut from_a) else {
        return Err(Refusal::BrokenTable);
    };
    let Some(second) = trace_after_into(live, a, *first, b, &mut from_b) else {
        return Err(Refusal::BrokenTable);
    };
    let from = first.steps;
    let to = second.steps;
    let verdict = two_plan(
        table.seen,
        call,
        first.nodes[from],
        second.nodes[to],
        (from + to) as u32,
    );
    let walked = from.saturating_sub(1) + to.saturating_sub(1);
    let plan = table.fitted(verdict, walked)?;
    Ok(FarPlan {
        plan,
        first: *first,
        second: *second,
    })
}

// Any call on live keys, planned whatever its walks.
pub fn far_plan(table: GoodTable<'_>, call: WalkCall) -> Result<FarPlan, Refusal>
    requires { LiveKeys table.head.count call }
    ensures { let t = table.entry in
        FarPlanned (rows_seen t.seen) (log_seen t.seen) t.head (walk_call call) result }
{
    match call {
        WalkCall::One(key, what) => far_one(table, key, what),
        WalkCall::Two(a, what, b) => far_two(table, a, b, what),
    }
}
