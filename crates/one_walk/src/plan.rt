ghost use Rattle.std.specs.Prelude.{ℕ, ◌<◌, Ok};
ghost use Rattle.rules.specs.Rules.{rows_seen};
ghost use Rattle.parts.specs.Bounds.{InRows};
ghost use Rattle.plans.specs.Plans.{Inside, MadeOfOne};

use makers::answer::{found, probed};
use plans::verdict::{OneCall, Planned, Root};
use post::plan::post_plan;
use rows::rows::row_at;
use rules::table::{Owner, Seen, Value};

// A call whose walk of so many steps ends at a root.
pub fn one_plan(seen: Seen<'_>, call: OneCall, root: u32, steps: u32) -> Planned
    requires { InRows root (rows_seen seen) }
    ensures fact { MadeOfOne (rows_seen seen.entry) call root steps (Ok result) }
    ensures by_index { (count : ℕ) → root < count → Inside count (Ok result) }
{
    match call {
        OneCall::Find => Planned::still(found(root, steps)),
        OneCall::Probe => {
            let held = row_at(seen, root);
            Planned::still(probed(0, Value::from(held), steps))
        }
        OneCall::ProbeKey => {
            let held = row_at(seen, root);
            Planned::still(probed(root, Value::from(held), steps))
        }
        OneCall::Post(owner, amount) => {
            let root = Root {
                key: root,
                row: row_at(seen, root),
            };
            let value = Value {
                owner: Owner::from(owner),
                amount,
            };
            post_plan(root, steps, value)
        }
    }
}
