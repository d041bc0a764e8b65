ghost use Rattle.std.specs.Prelude.{ℕ};
ghost use Rattle.rules.specs.declared.call.Call.TheVariants.{New, TryProbe};
ghost use Rattle.rules.specs.Rules.{Sought, rows_seen, log_seen};
ghost use Rattle.decisions.specs.Decided.{Does};

use decisions::good::GoodTable;
use decisions::todo::{End, Todo, refused, still};
use makers::answer::{found, held, said};
use rows::rows::row_at;
use rules::refusal::Refusal;
use rules::table::{Head, Owner, Value};
use undo_log::tokens::Settled;

// A new key, a root with the given owner (0 for none) and amount.
pub fn new_key(table: GoodTable<'_>, owner: u32, amount: u64) -> Todo
    ensures { let t = table.entry in
        (last : ℕ) (m : Sought) → Does (rows_seen t.seen) (log_seen t.seen) t.head last m (New owner amount) result }
{
    let GoodTable { seen, head } = table;
    if head.count as usize == seen.parents.len() {
        return refused(Refusal::KeysFull, head);
    }
    if table.lacks(1) {
        return refused(Refusal::LogFull, head);
    }
    let value = Value {
        owner: Owner::from(owner),
        amount,
    };
    Todo {
        settled: Settled {
            answer: found(head.count, 0),
            head: Head {
                count: head.count + 1,
                ..head
            },
        },
        end: End::Push(head.count, value),
    }
}

// The value of a key that is a root, without a walk.
pub fn try_probe(table: GoodTable<'_>, key: u32) -> Todo
    ensures { let t = table.entry in
        (last : ℕ) (m : Sought) → Does (rows_seen t.seen) (log_seen t.seen) t.head last m (TryProbe key) result }
{
    let GoodTable { seen, head } = table;
    if key >= head.count {
        return refused(Refusal::NoKey, head);
    }
    let row = row_at(seen, key);
    let answer = if row.parent == key {
        held(Value::from(row))
    } else {
        said(false, 0)
    };
    still(Settled { answer, head })
}
