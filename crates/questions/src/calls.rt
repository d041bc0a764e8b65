// Each question is about the mark that a token names; only the answer differs.
ghost use Rattle.std.specs.Prelude.{◌≡◌, ltb};
ghost use Rattle.rules.specs.Rules.{Answer, range, said};
ghost use Rattle.undo_log.specs.HeadCalls.{asked_on};

use makers::answer::{range, said};
use rules::call::Answer;
use rules::refusal::Refusal;
use rules::table::{Head, Mark};
use undo_log::marks::unfit;
use undo_log::tokens::{Settled, refused};

// What a question answers about the mark that is sought, where it is there and fit.
fn asked<F: FnOnce(Mark) -> Answer>(head: Head, sought: Option<Mark>, reply: F) -> Settled
    requires { F.IsAlwaysCallable reply }
    ensures { (says : Mark → Answer) → ((mark : Mark) (answer : Answer) → F.post reply mark answer → answer ≡ says mark)
        → result ≡ asked_on head says sought }
{
    let Some(mark) = sought else {
        return refused(Refusal::NotOpen, head);
    };
    if unfit(head, mark) {
        return refused(Refusal::BrokenTable, head);
    }
    Settled {
        answer: reply(mark),
        head,
    }
}

// The keys made since a snapshot.
pub fn keys_since(head: Head, sought: Option<Mark>) -> Settled
    ensures { result ≡ asked_on head (λ m. range m.keys head.count) sought }
{
    asked(head, sought, |mark| range(mark.keys, head.count))
}

// Where in the log the entries since a snapshot lie.
pub fn actions_since(head: Head, sought: Option<Mark>) -> Settled
    ensures { result ≡ asked_on head (λ m. range m.log_len head.used) sought }
{
    asked(head, sought, |mark| range(mark.log_len, head.used))
}

// Whether anything was logged since a snapshot.
pub fn has_changes(head: Head, sought: Option<Mark>) -> Settled
    ensures { result ≡ asked_on head (λ m. said (ltb m.log_len head.used) 0) sought }
{
    asked(head, sought, |mark| said(mark.log_len < head.used, 0))
}
