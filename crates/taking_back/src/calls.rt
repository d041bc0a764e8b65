ghost use Rattle.std.specs.Prelude.{ℕ};
ghost use Rattle.rules.specs.declared.call.Call.TheVariants.{Rollback};
ghost use Rattle.rules.specs.Rules.{rows_seen, log_seen};
ghost use Rattle.decisions.specs.Decided.{Does};

use decisions::good::GoodTable;
use decisions::todo::{End, Todo, refused};
use makers::answer::refusal;
use rollback::rollback::{broken, rolled_back};
use rules::numbers::DONE;
use rules::refusal::Refusal;
use rules::table::Mark;
use undo_log::tokens::Settled;

// All that was done since the innermost snapshot, taken back; the snapshot is closed.
pub fn roll_back(table: GoodTable<'_>, sought: Option<Mark>, token: u64) -> Todo
    ensures { let t = table.entry in
        (last : ℕ) → Does (rows_seen t.seen) (log_seen t.seen) t.head last sought (Rollback token) result }
{
    let GoodTable { seen, head } = table;
    let Some(mark) = sought else {
        return refused(Refusal::NotInnermost, head);
    };
    if broken(head, mark, seen.log) {
        return refused(Refusal::BrokenTable, head);
    }
    Todo {
        settled: Settled {
            answer: refusal(DONE),
            head: rolled_back(head, mark),
        },
        end: End::Undo(head.used),
    }
}
