ghost use Rattle.std.specs.Prelude.{◌≡◌};
ghost use Rattle.rules.specs.Rules.{table_in, SameParts};
ghost use Rattle.arrays.specs.Cut.{left};
ghost use Rattle.damage.specs.Commands.{lent_left};

use arrays::put::overwrite;
use arrays::reply::{Changed, Holding, Reply};
use damage::damage::Lending;
use rules::table::Lent;

// Lends other lengths; an error where there are none, for want of room.
pub fn lend(holding: Holding, lent: &mut Lent<'_>, lending: Option<Lending>) -> Changed
    ensures same_parts { SameParts lent.old lent.new }
    ensures value { left result (table_in lent.new) ≡ lent_left holding.lengths (table_in lent.old holding.state) lending }
{
    let Some(Lending { old, new, reply }) = lending else {
        return Changed {
            holding,
            reply: Reply::Error,
        };
    };
    let lengths = new.lengths;
    overwrite(lent.parents, old.parents, lengths.parents, 0);
    overwrite(lent.crowns, old.crowns, lengths.crowns, 0);
    overwrite(lent.amounts, old.amounts, lengths.amounts, 0);
    overwrite(lent.log, old.log, lengths.log, 0);
    Changed {
        holding: new,
        reply,
    }
}
