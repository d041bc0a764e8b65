ghost use Rattle.std.specs.Prelude.{◌≡◌};
ghost use Rattle.coding.specs.Coding.{call_list, single};
ghost use Rattle.runs.specs.Served.{host_lent};
ghost use Rattle.host.specs.Host.{hosted, serve};

use admit::tests::{CARRIED_OUT, Unserved, no_call, test_calls};
use coding::coding::CALL;
use layout::state::LentState;
use rules::table::Lent;
use runs::list::run;

// Carries out a list of calls, which is tested whole before its first call.
pub fn meter_calls(
    numbers: &mut [u32],
    serials: &mut [u64],
    parents: &mut [u32],
    crowns: &mut [u32],
    amounts: &mut [u64],
    log: &mut [u32],
    calls: &[u64],
    answers: &mut [u64],
) -> u32
    ensures { let h = host_lent numbers.old serials.old parents.old crowns.old amounts.old log.old answers.old in
        let after = host_lent numbers.new serials.new parents.new crowns.new amounts.new log.new answers.new in
        hosted result after ≡ serve h (call_list calls.now) }
{
    let Some(numbers) = numbers.as_mut_array() else {
        return Unserved::NoState.code();
    };
    let Some(serials) = serials.as_mut_array() else {
        return Unserved::NoState.code();
    };
    if let Err(unserved) = test_calls(calls, answers.len()) {
        return unserved.code();
    }
    let mut state = LentState { numbers, serials };
    let mut lent = Lent {
        parents,
        crowns,
        amounts,
        log,
    };
    run(&mut state, &mut lent, calls, answers);
    CARRIED_OUT
}

// Carries out one call: a list of four numbers.
pub fn meter_call(
    numbers: &mut [u32],
    serials: &mut [u64],
    parents: &mut [u32],
    crowns: &mut [u32],
    amounts: &mut [u64],
    log: &mut [u32],
    call: &[u64],
    answer: &mut [u64],
) -> u32
    ensures { let h = host_lent numbers.old serials.old parents.old crowns.old amounts.old log.old answer.old in
        let after = host_lent numbers.new serials.new parents.new crowns.new amounts.new log.new answer.new in
        hosted result after ≡ serve h (single call.now) }
{
    if call.len() == CALL {
        return meter_calls(
            numbers, serials, parents, crowns, amounts, log, call, answer,
        );
    }
    no_call(numbers.len(), serials.len()).code()
}
