ghost use Rattle.std.specs.Prelude.{ℕ, ◌<◌, Ok};
ghost use Rattle.plans.specs.Plans.{Inside, Posted};

use makers::answer::stepped;
use plans::verdict::{Finish, Planned, Root};
use rules::numbers::DONE;
use rules::table::Value;
use value::unify_values;

// A value on a root.
pub fn post_plan(root: Root, steps: u32, value: Value) -> Planned
    ensures posted { Posted root steps value (Ok result) }
    ensures by_index { (count : ℕ) → root.key < count → Inside count (Ok result) }
{
    match unify_values(Value::from(root.row), value) {
        Ok(sum) => Planned {
            answer: stepped(DONE, steps),
            finish: Finish::Crown(root.key, root.row.rank, sum),
        },
        Err(why) => Planned::unmerged(why, steps),
    }
}
