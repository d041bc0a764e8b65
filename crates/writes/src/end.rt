ghost use Rattle.std.specs.Prelude.{◌≡◌};
ghost use Rattle.rules.specs.Rules.{rows_in, log_in, SameParts};
ghost use Rattle.decisions.specs.End.{ended_with, end_by, Endable};

use decisions::todo::{End, Todo, new_row, with_used};
use rules::table::Lent;
use snapshot_vec::update::SnapshotVec;
use undo_log::tokens::Settled;

// Writes what a decided call writes: the one place that does, but for long walks.
pub fn end(lent: &mut Lent<'_>, count: u32, todo: Todo) -> Settled
    requires { Endable count (rows_in lent.old) (log_in lent.old) todo }
    ensures same_parts { SameParts lent.old lent.new }
    ensures value { ended_with (rows_in lent.new) (log_in lent.new) result ≡ end_by (rows_in lent.old) (log_in lent.old) todo }
{
    let Todo { settled, end } = todo;
    let head = settled.head;
    match end {
        End::Nothing => settled,
        End::Rows(finish) => {
            let mut values = SnapshotVec {
                lent,
                opened: head.open,
                used: head.used,
            };
            enact::plan::finish(&mut values, count, finish);
            with_used(settled, values.used)
        }
        End::Push(key, value) => {
            let mut values = SnapshotVec {
                lent,
                opened: head.open,
                used: head.used,
            };
            values.push(key, new_row(key, value));
            with_used(settled, values.used)
        }
        End::Undo(used) => {
            undoing::undo::undo(lent, head.used, used);
            settled
        }
    }
}
