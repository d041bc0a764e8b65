// What the commands for tests do, and which other lengths are asked for.
ghost use Rattle.std.specs.Prelude.{◌≡◌};
ghost use Rattle.rules.specs.Rules.{Rows, Log, table, table_in, SameParts, fresh};
ghost use Rattle.commands.specs.declared.command.Command.TheVariants as command;
ghost use Rattle.arrays.specs.Cut.{left};
ghost use Rattle.damage.specs.Commands.{lent_left, changed};

use arrays::lengths::{
    MOST_ENTRIES, MOST_ROWS, at_most, most_entries, most_rows, nothing, room_for,
};
use arrays::put::put;
use arrays::reply::{Changed, Holding, Reply, done};
use commands::command::{Lengths, RowNumbers};
use parts::amounts::{high_of, low_of};
use rules::numbers::{CROWN, ENTRY};
use rules::table::{Lent, Mark, State};

// Other lengths that a command asks for, with the state and the reply that they leave. What lies from an old length up to the
// new one becomes 0: for a fresh table all of it.
#[derive(Clone, Copy)]
pub struct Lending {
    pub old: Lengths,
    pub new: Holding,
    pub reply: Reply,
}

// Those of a fresh table of so many rows and entries, where there is room.
#[tactic(auto, unfolding(crate::specs::Commands::changed))]
pub fn fresh_table(rows: u32, entries: u32) -> Option<Lending>
    ensures { (n : Lengths) (rs : Rows) (l : Log) (s : State) → lent_left n (table rs l s) result ≡ changed n (table rs l s) (command.Table rows entries) }
{
    if rows > MOST_ROWS || entries > MOST_ENTRIES {
        return None;
    }
    let lengths = Lengths {
        parents: rows,
        crowns: rows * 2,
        amounts: rows,
        log: entries * 7,
    };
    let state = fresh();
    Some(Lending {
        old: nothing(),
        new: Holding { lengths, state },
        reply: Reply::Table,
    })
}

// Those that `lend` names, where there is room.
#[tactic(auto, unfolding(crate::specs::Commands::changed))]
pub fn other_lengths(holding: Holding, new: Lengths) -> Option<Lending>
    ensures { (rs : Rows) (l : Log) → let t = table rs l holding.state in lent_left holding.lengths t result ≡ changed holding.lengths t (command.Lend new) }
{
    room_for(new).then_some(Lending {
        old: holding.lengths,
        new: Holding {
            lengths: new,
            ..holding
        },
        reply: Reply::Ok,
    })
}

// Puts a row's numbers where they are lent; an error where no part has a place for one.
pub fn set_row(holding: Holding, lent: &mut Lent<'_>, key: u32, row: RowNumbers) -> Changed
    ensures same_parts { SameParts lent.old lent.new }
    ensures value { left result (table_in lent.new) ≡ changed holding.lengths (table_in lent.old holding.state) (command.SetRow key row) }
{
    let lengths = holding.lengths;
    let parents = at_most(lengths.parents, lent.parents.len());
    let crowns = at_most(lengths.crowns, lent.crowns.len());
    let amounts = at_most(lengths.amounts, lent.amounts.len());
    let reply = done(key < most_rows(parents, crowns, amounts));
    let at = key as usize;
    let parent = [row.parent];
    let crown = [row.rank, row.owner];
    let amount = [row.amount];
    put(lent.parents, lengths.parents, at, &parent);
    put(lent.crowns, lengths.crowns, at * CROWN, &crown);
    put(lent.amounts, lengths.amounts, at, &amount);
    Changed { holding, reply }
}

// Puts an entry's numbers where they are lent; an error where the log has a place for none.
#[tactic(auto, using(crate::proofs::CommandLaws::entry_set))]
pub fn set_entry(
    holding: Holding,
    log: &mut [u32],
    i: u32,
    kind: u32,
    key: u32,
    row: RowNumbers,
) -> Changed
    ensures { (rs : Rows) → left result (table rs log.new) ≡ changed holding.lengths (table rs log.old holding.state) (command.SetEntry i kind key row) }
{
    let length = holding.lengths.log;
    let reply = done(i < most_entries(at_most(length, log.len())));
    let low = low_of(row.amount);
    let high = high_of(row.amount);
    let numbers = [kind, key, row.parent, row.rank, row.owner, low, high];
    put(log, length, i as usize * ENTRY, &numbers);
    Changed { holding, reply }
}

// The state with one mark changed.
#[tactic(auto, unfolding(crate::specs::Commands::changed))]
pub fn set_mark(holding: Holding, i: u32, mark: Mark) -> Changed
    ensures { (rs : Rows) (l : Log) → left result (table rs l) ≡ changed holding.lengths (table rs l holding.state) (command.SetMark i mark) }
{
    let mut marks = holding.state.marks;
    let at = i as usize;
    if at >= marks.len() {
        return Changed {
            holding,
            reply: Reply::Error,
        };
    }
    marks[at] = mark;
    let state = State {
        marks,
        ..holding.state
    };
    Changed {
        holding: Holding { state, ..holding },
        reply: Reply::Ok,
    }
}

// The state of a fresh table. Not derived: the check leaves open that `State::default()` is this one.
pub fn fresh() -> State
    ensures { result ≡ fresh }
{
    let mark = Mark {
        serial: 0,
        log_len: 0,
        keys: 0,
    };
    State {
        count: 0,
        used: 0,
        open: 0,
        last: 0,
        marks: [mark; 32],
    }
}

// The state with its numbers changed, and its marks as they were.
#[tactic(auto, unfolding(crate::specs::Commands::changed))]
pub fn set_state(holding: Holding, count: u32, used: u32, open: u32, last: u64) -> Changed
    ensures { (rs : Rows) (l : Log) → left result (table rs l) ≡ changed holding.lengths (table rs l holding.state) (command.SetState count used «open» last) }
{
    let state = State {
        count,
        used,
        open,
        last,
        ..holding.state
    };
    Changed {
        holding: Holding { state, ..holding },
        reply: Reply::Ok,
    }
}
