use crate::lending::{entries_lent, entries_wanted, rows_lent};
use arrays::reply::Holding;
use commands::command::Lengths;
use layout::state::{LentState, NUMBERS, SERIALS};
use lent_state::state::state_in;
use replaying::replay::replay;
use rules::numbers::{ENTRY, MAX_ENTRIES};
use rules::refusal::Refusal;
use rules::table::Lent;
use storage::memory::Memory;

// What replay answered, how much was lent, and the table's state.
#[derive(Drop)]
pub struct Rebuilt {
    pub no: u32,
    pub entry: usize,
    pub holding: Holding,
}

// The journal replayed into a fresh table in all of the parts.
fn replay_fresh(lent: &mut Lent<'_>, bytes: &[u8], lengths: Lengths) -> Rebuilt {
    let mut numbers = [0; NUMBERS];
    let mut serials = [0; SERIALS];
    let mut state = LentState {
        numbers: &mut numbers,
        serials: &mut serials,
    };
    let ended = replay(&mut state, lent, bytes);
    Rebuilt {
        no: ended.no,
        entry: ended.entry,
        holding: Holding {
            lengths,
            state: state_in(&state),
        },
    }
}

// The journal's first bytes replayed into a fresh table with so many rows and entries: nothing where the answer would be about the
// program's memory.
pub fn replay_lent(
    asked_rows: u64,
    asked_log: u64,
    memory: &mut Memory,
    used: usize,
) -> Option<Rebuilt> {
    let used = used.min(memory.journal.len());
    let rows = rows_lent(asked_rows, memory);
    let wanted = entries_wanted(asked_log);
    let entries = entries_lent(wanted, memory.log.len());
    let lengths = Lengths {
        parents: rows as u32,
        crowns: (rows * 2) as u32,
        amounts: rows as u32,
        log: (entries * ENTRY) as u32,
    };
    let mut lent = Lent {
        parents: &mut memory.parents[..rows],
        crowns: &mut memory.crowns[..rows * 2],
        amounts: &mut memory.amounts[..rows],
        log: &mut memory.log[..entries * ENTRY],
    };
    let rebuilt = replay_fresh(&mut lent, &memory.journal[..used], lengths);
    let short = entries < wanted && is_about_log(asked_log, rebuilt.no);
    (!short).then_some(rebuilt)
}

// Whether an answer over a log that is shorter than was asked for is about that: more is asked for than document 01 allows and can't be
// lent, or the log is full.
fn is_about_log(asked: u64, no: u32) -> bool {
    asked > MAX_ENTRIES as u64 || no == Refusal::LogFull.code()
}
