ghost use Rattle.std.specs.Prelude.{◌≡◌, ℕ, ◌≤◌, ◌<◌};
ghost use Rattle.rules.specs.Rules.{MAX-RANK};
ghost use Rattle.plans.specs.Plans.{finish_of, united, InsideEnd, Inside, Joined};

use makers::answer::stepped;
use plans::verdict::{Finish, Planned, Root};
use rules::numbers::{DONE, MAX_RANK};
use rules::refusal::Refusal;
use rules::table::Value;
use value::unify_values;

// Which root redirects to which: ena's `unify_roots`.
fn unify_roots(a: Root, b: Root, value: Value) -> Finish
    requires { b.row.rank ≤ MAX-RANK }
    ensures result_value { finish_of result ≡ united a b value }
    ensures by_index { (count : ℕ) → a.key < count → b.key < count → InsideEnd count result }
{
    if a.row.rank > b.row.rank {
        return Finish::Unite(b.key, a.key, a.row.rank, value);
    }
    if a.row.rank < b.row.rank {
        return Finish::Unite(a.key, b.key, b.row.rank, value);
    }
    Finish::Unite(a.key, b.key, b.row.rank + 1, value)
}

// Two different roots made one, where their values merge.
pub fn join_roots(a: Root, b: Root, steps: u32) -> Result<Planned, Refusal>
    ensures joined { Joined a b steps result }
    ensures by_index { (count : ℕ) → a.key < count → b.key < count → Inside count result }
{
    if a.row.rank > MAX_RANK || b.row.rank > MAX_RANK {
        return Err(Refusal::BrokenTable);
    }
    let plan = match unify_values(Value::from(a.row), Value::from(b.row)) {
        Ok(sum) => Planned {
            answer: stepped(DONE, steps),
            finish: unify_roots(a, b, sum),
        },
        Err(why) => Planned::unmerged(why, steps),
    };
    Ok(plan)
}
