ghost use Rattle.std.specs.Prelude.{◌≡◌, true, ◌*◌, ◌≤◌, length};
ghost use Rattle.rules.specs.Rules.{SameParts, outcome, step};
ghost use Rattle.undo_log.specs.Settled.{mark_for};
ghost use Rattle.layout.specs.State.{Sized};
ghost use Rattle.layout.specs.Lent.{SameState, head_lent, state_under};
ghost use Rattle.numbered.specs.Going.{going_table, SameGoing};
ghost use Rattle.coding.specs.Coding.{call_at, call_list, is_listed, calls_in};
ghost use Rattle.runs.specs.Served.{host_in, served};

use bad_state::bad::{bad_lent, refuse_bad};
use coding::asked::AskedCall;
use coding::coding::{QUESTIONS, TOKENS};
use layout::state::{LentState, asked_mark, closing_mark};
use makers::answer::ANSWER;
use numbered::going::Going;
use numbered::one::carry_out;
use rules::call::Answer;
use rules::table::{Head, Lent, Mark};
use write_answer::answers::put;
use write_state::after::write_head;

// The mark that a call is about. Most calls name no token, which their codes tell.
#[tactic(auto, using(crate::proofs::RunLaws::code_names_none, crate::proofs::RunLaws::code_closes, crate::proofs::RunLaws::code_asks))]
fn sought_by(state: &LentState<'_>, asked: AskedCall<'_>, head: Head) -> Option<Mark>
    ensures { result ≡ mark_for (state_under head state.now) (call_at asked.entry.numbers.now 0) }
{
    let numbers = asked.numbers;
    let code = numbers[0];
    let token = numbers[1];
    if code < TOKENS {
        return None;
    }
    if code < QUESTIONS {
        return closing_mark(state, head, token);
    }
    asked_mark(state, head, token)
}

// One call of a list.
#[tactic(auto, using(bad_state::proofs::GoodLaws::refused_bad))]
pub fn next(going: &mut Going<'_, '_, '_, '_>, asked: AskedCall<'_>) -> Answer
    ensures same_going { SameGoing going.old going.new }
    ensures value { outcome result (going_table going.new) ≡ step (going_table going.old) (call_at asked.entry.numbers.now 0) }
{
    if going.is_bad {
        return refuse_bad(going.head).answer;
    }
    let head = going.head;
    let sought = sought_by(going.state, asked, head);
    carry_out(going, sought, asked.call())
}

// A list that is one of calls, on a table that goes on from call to call; then the head is written.
fn run_on(going: &mut Going<'_, '_, '_, '_>, calls: &[u64], answers: &mut [u64])
    requires calls_value { is_listed (call_list calls.now) ≡ true }
    requires calls_bound { 9 * length calls.now ≤ 4 * length answers.old }
    requires head { going.old.head ≡ head_lent going.old.state.now }
    requires sized { Sized going.old.state.now.numbers.now going.old.state.now.serials.now }
    ensures same_going { SameGoing going.old going.new }
    ensures value { host_in going.new.state.now going.new.lent.now answers.new
        ≡ served (host_in going.old.state.now going.old.lent.now answers.old) (calls_in (call_list calls.now)) }
{
    let (fours, _) = calls.as_chunks();
    for (i, numbers) in fours.iter().enumerate() {
        let asked = AskedCall { numbers };
        let answer = next(going, asked);
        put(answers, i * ANSWER, answer);
    }
    let left = going.head;
    write_head(going.state, left);
}

// Carries out a list that is one of calls, with room for the answers. The head is at hand from call to call, and is written once.
pub fn run(state: &mut LentState<'_>, lent: &mut Lent<'_>, calls: &[u64], answers: &mut [u64])
    requires calls_value { is_listed (call_list calls.now) ≡ true }
    requires calls_bound { 9 * length calls.now ≤ 4 * length answers.old }
    ensures same_state { SameState state.old state.new }
    ensures same_parts { SameParts lent.old lent.new }
    ensures value { host_in state.new lent.new answers.new ≡ served (host_in state.old lent.old answers.old) (calls_in (call_list calls.now)) }
{
    let head = state.head();
    let is_bad = bad_lent(head, lent);
    let mut going = Going {
        state,
        lent,
        head,
        is_bad,
    };
    run_on(&mut going, calls, answers);
}
