// Document 02, Q-1: exported.
ghost use Rattle.std.specs.Prelude.{◌≡◌};
ghost use Rattle.runs.specs.Served.{host_lent};
ghost use Rattle.host.specs.Host.{hosted};
ghost use Rattle.replayer.specs.Replaying.{serve_replay};

use admit::tests::{CARRIED_OUT, Unserved};
use layout::state::LentState;
use replaying::replay::replay;
use results::results::put_result;
use rules::table::Lent;

// Replays a journal, which is judged whole before its first entry.
#[unsafe(no_mangle)]
pub extern "C" fn meter_replay(
    numbers: &mut [u32],
    serials: &mut [u64],
    parents: &mut [u32],
    crowns: &mut [u32],
    amounts: &mut [u64],
    log: &mut [u32],
    journal: &[u8],
    res: &mut [u64],
) -> u32
    ensures { let h = host_lent numbers.old serials.old parents.old crowns.old amounts.old log.old res.old in
        let after = host_lent numbers.new serials.new parents.new crowns.new amounts.new log.new res.new in
        hosted result after ≡ serve_replay h journal.now }
{
    let Some(numbers) = numbers.as_mut_array() else {
        return Unserved::NoState.code();
    };
    let Some(serials) = serials.as_mut_array() else {
        return Unserved::NoState.code();
    };
    let Some(res) = res.as_mut_array() else {
        return Unserved::NoAnswers.code();
    };
    let mut state = LentState { numbers, serials };
    let mut lent = Lent {
        parents,
        crowns,
        amounts,
        log,
    };
    let ended = replay(&mut state, &mut lent, journal);
    put_result(res, ended.no, ended.entry);
    CARRIED_OUT
}
