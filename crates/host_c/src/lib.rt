// The library's two functions, for C and the languages that call it.
#![tactic(auto)]

ghost use Rattle.std.specs.Prelude.{◌≡◌};
ghost use Rattle.coding.specs.Coding.{call_list, single};
ghost use Rattle.runs.specs.Served.{host_lent};
ghost use Rattle.host.specs.Host.{hosted, serve};

// Carries out a list of calls, which is tested whole before its first call.
#[unsafe(no_mangle)]
pub extern "C" fn meter_calls(
    numbers: &mut [u32],
    serials: &mut [u64],
    parents: &mut [u32],
    crowns: &mut [u32],
    amounts: &mut [u64],
    log: &mut [u32],
    calls: &[u64],
    answers: &mut [u64],
) -> u32
    ensures { let h = host_lent numbers.old serials.old parents.old crowns.old amounts.old log.old answers.old in
        let after = host_lent numbers.new serials.new parents.new crowns.new amounts.new log.new answers.new in
        hosted result after ≡ serve h (call_list calls.now) }
{
    host::calls::meter_calls(
        numbers, serials, parents, crowns, amounts, log, calls, answers,
    )
}

// Carries out one call: a list of four numbers.
#[unsafe(no_mangle)]
pub extern "C" fn meter_call(
    numbers: &mut [u32],
    serials: &mut [u64],
    parents: &mut [u32],
    crowns: &mut [u32],
    amounts: &mut [u64],
    log: &mut [u32],
    call: &[u64],
    answer: &mut [u64],
) -> u32
    ensures { let h = host_lent numbers.old serials.old parents.old crowns.old amounts.old log.old answer.old in
        let after = host_lent numbers.new serials.new parents.new crowns.new amounts.new log.new answer.new in
        hosted result after ≡ serve h (single call.now) }
{
    host::calls::meter_call(
        numbers, serials, parents, crowns, amounts, log, call, answer,
    )
}
