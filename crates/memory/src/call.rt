ghost use Rattle.std.specs.Prelude.{◌≡◌};
ghost use Rattle.rules.specs.Rules.{table_in, table_lent, answered, outcome_of, step, SameParts};
ghost use Rattle.arrays.specs.declared.reply.Reply.TheVariants as reply;
ghost use Rattle.arrays.specs.Cut.{left, leaving, called};

use arrays::lengths::at_most;
use arrays::reply::{Changed, Holding, Reply};
use rules::call::{Answer, Call};
use rules::table::{Lent, State};

// A call of the table on what is lent of the four parts. What is held is lent, since a state that is handed on by value is copied each time.
pub fn call_in(holding: &mut Holding, lent: &mut Lent<'_>, call: Call) -> Answer
    ensures same_parts { SameParts lent.old lent.new }
    ensures value { leaving (reply.Answer call result) holding.new.lengths (table_in lent.new holding.new.state) ≡ called holding.old.lengths (table_in lent.old holding.old.state) call }
{
    call_cut(
        holding,
        lent.parents,
        lent.crowns,
        lent.amounts,
        lent.log,
        call,
    )
}

// The same of what is held by value.
pub fn call_lent(holding: Holding, lent: &mut Lent<'_>, call: Call) -> Changed
    ensures same_parts { SameParts lent.old lent.new }
    ensures value { left result (table_in lent.new) ≡ called holding.lengths (table_in lent.old holding.state) call }
{
    let mut after = holding;
    let answer = call_in(&mut after, lent, call);
    Changed {
        holding: after,
        reply: Reply::Answer(call, answer),
    }
}

// `call_in` of the parts one by one: the checker covers no `Lent` made of parts that are cut off those behind a `&mut Lent`.
fn call_cut(
    holding: &mut Holding,
    parents: &mut [u32],
    crowns: &mut [u32],
    amounts: &mut [u64],
    log: &mut [u32],
    call: Call,
) -> Answer
    ensures { let t = table_lent parents.old crowns.old amounts.old log.old in
        let after = table_lent parents.new crowns.new amounts.new log.new in
        leaving (reply.Answer call result) holding.new.lengths (after holding.new.state) ≡ called holding.old.lengths (t holding.old.state) call }
{
    let lengths = holding.lengths;
    let a = at_most(lengths.parents, parents.len()) as usize;
    let b = at_most(lengths.crowns, crowns.len()) as usize;
    let c = at_most(lengths.amounts, amounts.len()) as usize;
    let d = at_most(lengths.log, log.len()) as usize;
    call_fronts(
        &mut holding.state,
        &mut parents[..a],
        &mut crowns[..b],
        &mut amounts[..c],
        &mut log[..d],
        call,
    )
}

// A call of the table on four parts.
fn call_fronts(
    state: &mut State,
    parents: &mut [u32],
    crowns: &mut [u32],
    amounts: &mut [u64],
    log: &mut [u32],
    call: Call,
) -> Answer
    ensures { let t = table_lent parents.old crowns.old amounts.old log.old in
        let after = table_lent parents.new crowns.new amounts.new log.new in
        outcome_of (answered result state.new) after ≡ step (t state.old) call }
{
    let mut lent = Lent {
        parents,
        crowns,
        amounts,
        log,
    };
    let answered = table::by_value::call(*state, &mut lent, call);
    *state = answered.state;
    answered.answer
}
