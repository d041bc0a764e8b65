ghost use Rattle.std.specs.Prelude.{◌≡◌};
ghost use Rattle.rules.specs.Rules.{answered};
ghost use Rattle.undo_log.specs.Settled.{state_after};

use rules::call::Answered;
use rules::table::{Mark, State};
use undo_log::tokens::Settled;

// The state that a call leaves: its head and, where it opened a snapshot, the token and the mark.
#[tactic(auto, unfolding(undo_log::specs::Settled::state_after))]
pub fn state_after(state: State, settled: Settled) -> Answered
    ensures { result ≡ answered settled.answer (state_after state settled) }
{
    let Settled { answer, head } = settled;
    let mut after = State {
        count: head.count,
        used: head.used,
        open: head.open,
        ..state
    };
    if head.open > state.open {
        after.last = answer.token;
        // by `get_mut` and `if let` the proof didn't close
        let at = state.open as usize;
        if at < after.marks.len() {
            after.marks[at] = Mark {
                serial: answer.token,
                log_len: state.used,
                keys: state.count,
            };
        }
    }
    Answered {
        answer,
        state: after,
    }
}
