ghost use Rattle.std.specs.Prelude.{◌≡◌};
ghost use Rattle.rules.specs.Rules.{table_in, SameParts};
ghost use Rattle.arrays.specs.Cut.{left, leaving};
ghost use Rattle.damage.specs.Commands.{changed};

use crate::call::call_in;
use arrays::reply::{Changed, Holding, Reply};
use commands::command::Command;
use others::other::other;
use rules::table::Lent;

// Carries a command out, but for what it prints.
#[tactic(auto, unfolding(damage::specs::Commands::changed))]
pub fn change_in(holding: &mut Holding, lent: &mut Lent<'_>, command: Command) -> Reply
    ensures same_parts { SameParts lent.old lent.new }
    ensures value { leaving result holding.new.lengths (table_in lent.new holding.new.state) ≡ changed holding.old.lengths (table_in lent.old holding.old.state) command }
{
    match command {
        Command::Call(call) => Reply::Answer(call, call_in(holding, lent, call)),
        _ => {
            let changed = other(*holding, lent, command);
            *holding = changed.holding;
            changed.reply
        }
    }
}

// The same of what is held by value.
pub fn change(holding: Holding, lent: &mut Lent<'_>, command: Command) -> Changed
    ensures same_parts { SameParts lent.old lent.new }
    ensures value { left result (table_in lent.new) ≡ changed holding.lengths (table_in lent.old holding.state) command }
{
    let mut after = holding;
    let reply = change_in(&mut after, lent, command);
    Changed {
        holding: after,
        reply,
    }
}
