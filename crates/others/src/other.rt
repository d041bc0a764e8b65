ghost use Rattle.std.specs.Prelude.{◌≡◌};
ghost use Rattle.rules.specs.Rules.{table_in, SameParts};
ghost use Rattle.arrays.specs.Cut.{left};
ghost use Rattle.others.specs.Others.{otherwise};

use arrays::reply::{Changed, Holding, Reply};
use clearing::lengths::lend;
use commands::command::Command;
use damage::damage::{fresh_table, other_lengths, set_entry, set_mark, set_row, set_state};
use rules::table::Lent;

// Carries a command out that is no call, but for what it prints. A call is an error here.
#[tactic(auto, unfolding(damage::specs::Commands::changed))]
pub fn other(holding: Holding, lent: &mut Lent<'_>, command: Command) -> Changed
    ensures same_parts { SameParts lent.old lent.new }
    ensures value { left result (table_in lent.new) ≡ otherwise holding.lengths (table_in lent.old holding.state) command }
{
    let reply = match command {
        Command::Table(rows, entries) => {
            return lend(holding, lent, fresh_table(rows, entries));
        }
        Command::SetRow(key, row) => return set_row(holding, lent, key, row),
        Command::SetEntry(i, kind, key, row) => {
            return set_entry(holding, lent.log, i, kind, key, row);
        }
        Command::SetState(count, used, open, last) => {
            return set_state(holding, count, used, open, last);
        }
        Command::SetMark(i, mark) => return set_mark(holding, i, mark),
        Command::Lend(new) => return lend(holding, lent, other_lengths(holding, new)),
        Command::Blank => Reply::Silent,
        Command::Row(key) => Reply::Row(key),
        Command::Live => Reply::Live,
        Command::Dump => Reply::Dump,
        Command::Error | Command::Call(_) => Reply::Error,
    };
    Changed { holding, reply }
}
