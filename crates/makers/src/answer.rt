ghost use Rattle.std.specs.Prelude.{◌≡◌};
ghost use Rattle.rules.specs.Rules.{DONE, refusal, stepped, found, probed, held, said, range, opened, answer_numbers};

use rules::call::Answer;
use rules::numbers::DONE;
use rules::table::{Owner, Value};

// DONE, where there is nothing to say: each other answer is this one but for what it says.
fn done() -> Answer
    ensures { result ≡ refusal DONE }
{
    Answer {
        no: DONE,
        key: 0,
        token: 0,
        owner: Owner::Nobody,
        amount: 0,
        steps: 0,
        yes: false,
        from: 0,
        to: 0,
    }
}

// A number and the steps of the walks.
pub fn stepped(no: u32, steps: u32) -> Answer
    ensures { result ≡ stepped no steps }
{
    Answer {
        no,
        steps,
        ..done()
    }
}

// A refusal, or DONE where there is nothing to say.
pub fn refusal(no: u32) -> Answer
    ensures { result ≡ refusal no }
{
    Answer { no, ..done() }
}

pub fn found(root: u32, steps: u32) -> Answer
    ensures { result ≡ found root steps }
{
    Answer {
        key: root,
        steps,
        ..done()
    }
}

pub fn said(yes: bool, steps: u32) -> Answer
    ensures { result ≡ said yes steps }
{
    Answer {
        steps,
        yes,
        ..done()
    }
}

pub fn range(from: u32, to: u32) -> Answer
    ensures { result ≡ range from to }
{
    Answer { from, to, ..done() }
}

pub fn opened(token: u64) -> Answer
    ensures { result ≡ opened token }
{
    Answer { token, ..done() }
}

pub fn probed(root: u32, value: Value, steps: u32) -> Answer
    ensures { result ≡ probed root value steps }
{
    Answer {
        key: root,
        owner: value.owner,
        amount: value.amount,
        steps,
        ..done()
    }
}

// The value of a row that is a root, told apart from nothing.
pub fn held(value: Value) -> Answer
    ensures { result ≡ held value }
{
    Answer {
        owner: value.owner,
        amount: value.amount,
        yes: true,
        ..done()
    }
}

// How many fields an answer has.
pub const ANSWER: usize = 9;

// The fields of an answer as numbers, in their order: the one list of them. No `From`, which would have to stand in `rules`, beside
// the type, and would say no more at its callers.
pub fn answer_numbers(answer: Answer) -> [u64; ANSWER]
    ensures { result ≡ answer_numbers answer }
{
    [
        answer.no as u64,
        answer.key as u64,
        answer.token,
        u32::from(answer.owner) as u64,
        answer.amount,
        answer.steps as u64,
        answer.yes as u64,
        answer.from as u64,
        answer.to as u64,
    ]
}
