// len, snapshot and commit over a head, the last serial and the mark in question.
ghost use Rattle.std.specs.Prelude.{◌≡◌, ◌-◌, ◌≤◌};
ghost use Rattle.rules.specs.Rules.{MAX-OPEN, code_of, refusal, range, stranded, committed};
ghost use Rattle.undo_log.specs.Settled.{settled};
ghost use Rattle.undo_log.specs.HeadCalls.{head_call, snapshot_on, commit_on};

use crate::marks::unfit;
use makers::answer::{opened, range, refusal};
use rules::call::{Answer, Call};
use rules::numbers::{DONE, MAX_OPEN, MAX_U64};
use rules::refusal::Refusal;
use rules::table::{Head, Mark};

// What a call answers, and the head that it leaves.
#[derive(Clone, Copy)]
pub struct Settled {
    pub answer: Answer,
    pub head: Head,
}

// The calls that neither read nor write rows and entries.
#[derive(Clone, Copy)]
pub enum HeadCall {
    Len,
    Snapshot,
    Commit(u64),
    Keys(u64),
    Actions(u64),
    Changes(u64),
}

impl From<HeadCall> for Call {
    ghost from_gives = { λ asked call. call ≡ head_call asked };

    fn from(asked: HeadCall) -> Call {
        match asked {
            HeadCall::Len => Call::Len,
            HeadCall::Snapshot => Call::Snapshot,
            HeadCall::Commit(token) => Call::Commit(token),
            HeadCall::Keys(token) => Call::Keys(token),
            HeadCall::Actions(token) => Call::Actions(token),
            HeadCall::Changes(token) => Call::Changes(token),
        }
    }
}

// A refusal leaves the head as it is.
pub fn refused(why: Refusal, head: Head) -> Settled
    ensures { result ≡ settled (refusal (code_of why)) head }
{
    Settled {
        answer: refusal(why.code()),
        head,
    }
}

// How many keys there are.
pub fn len(head: Head) -> Settled
    ensures { result ≡ settled (range 0 head.count) head }
{
    Settled {
        answer: range(0, head.count),
        head,
    }
}

// Opens a snapshot; its token is the next serial.
pub fn snapshot(head: Head, last: u64) -> Settled
    requires { head.«open» ≤ MAX-OPEN }
    ensures { result ≡ snapshot_on head last }
{
    if head.open == MAX_OPEN {
        return refused(Refusal::TooDeep, head);
    }
    if last == MAX_U64 {
        return refused(Refusal::SerialsSpent, head);
    }
    Settled {
        answer: opened(last + 1),
        head: Head {
            open: head.open + 1,
            ..head
        },
    }
}

// How many snapshots are open once the innermost is closed.
pub fn closed(opened: u32) -> u32
    ensures { result ≡ opened - 1 }
{
    opened.saturating_sub(1)
}

// Whether the only open mark has entries before it, which emptying the log would lose.
fn stranded(head: Head, mark: Mark) -> bool
    ensures { result ≡ stranded head mark }
{
    head.open == 1 && mark.log_len > 0
}

// The head once the innermost snapshot is closed and its entries are kept; closing the only one empties the log.
fn committed(head: Head) -> Head
    ensures { result ≡ committed head }
{
    let open = closed(head.open);
    if head.open == 1 {
        return Head {
            used: 0,
            open,
            ..head
        };
    }
    Head { open, ..head }
}

pub fn commit(head: Head, sought: Option<Mark>) -> Settled
    ensures { result ≡ commit_on head sought }
{
    let Some(mark) = sought else {
        return refused(Refusal::NotInnermost, head);
    };
    if unfit(head, mark) || stranded(head, mark) {
        return refused(Refusal::BrokenTable, head);
    }
    Settled {
        answer: refusal(DONE),
        head: committed(head),
    }
}
