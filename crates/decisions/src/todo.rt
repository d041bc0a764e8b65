ghost use Rattle.std.specs.Prelude.{◌≡◌};
ghost use Rattle.rules.specs.Rules.{code_of, refusal, row, head};
ghost use Rattle.undo_log.specs.Settled.{settled};
ghost use Rattle.decisions.specs.End.{still_todo, verdict_todo};

use plans::verdict::{Finish, Planned};
use rules::refusal::Refusal;
use rules::table::{Head, Row, Value};
use undo_log::tokens::Settled;

// What is written once a call is decided.
#[derive(Drop)]
pub enum End {
    Nothing,
    // at the roots
    Rows(Finish),
    // a new key's row
    Push(u32, Value),
    // the entries from the settled head's used log up to this one, undone
    Undo(u32),
}

// A decided call: its answer and the head before it logs, and what is to be written.
#[derive(Drop)]
pub struct Todo {
    pub settled: Settled,
    pub end: End,
}

// Nothing is written.
pub fn still(settled: Settled) -> Todo
    ensures { result ≡ still_todo settled }
{
    Todo {
        settled,
        end: End::Nothing,
    }
}

// A refusal leaves the head as it is.
pub fn refused(why: Refusal, head: Head) -> Todo
    ensures { result ≡ still_todo (settled (refusal (code_of why)) head) }
{
    still(undo_log::tokens::refused(why, head))
}

// What a call comes to whose walks rewrite nothing.
pub fn from_verdict(verdict: Result<Planned, Refusal>, head: Head) -> Todo
    ensures { result ≡ verdict_todo head verdict }
{
    match verdict {
        Err(why) => refused(why, head),
        Ok(plan) => Todo {
            settled: Settled {
                answer: plan.answer,
                head,
            },
            end: End::Rows(plan.finish),
        },
    }
}

// The same with another used log.
pub fn with_used(before: Settled, used: u32) -> Settled
    ensures { result ≡ settled before.answer (head before.head.count used before.head.«open») }
{
    Settled {
        head: Head {
            used,
            ..before.head
        },
        ..before
    }
}

// A new key is a root of rank 0.
pub fn new_row(key: u32, value: Value) -> Row
    ensures { result ≡ row key 0 value }
{
    Row {
        parent: key,
        rank: 0,
        owner: value.owner,
        amount: value.amount,
    }
}
