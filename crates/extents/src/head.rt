// How much there is to be shown.
ghost use Rattle.std.specs.Prelude.{◌≡◌};
ghost use Rattle.rules.specs.Rules.{sizes};
ghost use Rattle.replies.specs.Replies.{all_of, in_use};

use arrays::lengths::{most_entries, most_rows};
use commands::command::Lengths;
use rules::table::{Head, State};

// All rows and entries that the lent parts reach, and all marks.
pub fn all_there_is(lent: Lengths) -> Head
    ensures { result ≡ all_of (sizes lent.parents lent.crowns lent.amounts lent.log) }
{
    Head {
        count: most_rows(lent.parents, lent.crowns, lent.amounts),
        used: most_entries(lent.log),
        open: 32,
    }
}

// What of it is in use.
pub fn in_use(state: State, all: Head) -> Head
    ensures { result ≡ in_use state all }
{
    Head {
        count: state.count.min(all.count),
        used: state.used.min(all.used),
        open: state.open,
    }
}
