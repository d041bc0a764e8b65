ghost use Rattle.std.specs.Prelude.{ℕ, ◌<◌};
ghost use Rattle.rules.specs.Rules.{rows_seen};
ghost use Rattle.parts.specs.Bounds.{InRows};
ghost use Rattle.plans.specs.Plans.{Inside, MadeOfTwo};

use join::plan::join_roots;
use makers::answer::{said, stepped};
use plans::verdict::{Planned, Root, TwoCall};
use rows::rows::row_at;
use rules::numbers::DONE;
use rules::refusal::Refusal;
use rules::table::Seen;

// A call whose two walks, of so many steps together, end at the roots `a` and `b`.
pub fn two_plan(
    seen: Seen<'_>,
    call: TwoCall,
    a: u32,
    b: u32,
    steps: u32,
) -> Result<Planned, Refusal>
    requires in_rows { InRows a (rows_seen seen) }
    requires in_rows_2 { InRows b (rows_seen seen) }
    ensures fact { MadeOfTwo (rows_seen seen.entry) call a b steps result }
    ensures by_index { (count : ℕ) → a < count → b < count → Inside count result }
{
    match call {
        TwoCall::Unioned => Ok(Planned::still(said(a == b, steps))),
        TwoCall::Join => {
            if a == b {
                return Ok(Planned::still(stepped(DONE, steps)));
            }
            let root_a = Root {
                key: a,
                row: row_at(seen, a),
            };
            let root_b = Root {
                key: b,
                row: row_at(seen, b),
            };
            join_roots(root_a, root_b, steps)
        }
    }
}
