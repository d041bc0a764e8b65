// What a call comes to, judged before anything is written.
ghost use Rattle.std.specs.Prelude.{◌≡◌, false};
ghost use Rattle.rules.specs.Rules.{rows_seen, log_seen, sizes_of, bad};
ghost use Rattle.decisions.specs.Decided.{Decided};

use decisions::decision::Decision;
use decisions::good::GoodTable;
use decisions::sorted::Sorted;
use decisions::todo::still;
use direct::calls::{new_key, try_probe};
use head_calls::calls::{Outline, on_head};
use near::calls::near_walk;
use rules::call::Call;
use rules::table::Seen;
use taking_back::calls::roll_back;

// Any call on a table whose state and lent parts are not bad; from here on that is a fact of the type.
pub fn decide(seen: Seen<'_>, outline: Outline, call: Call) -> Decision
    requires { bad (sizes_of (rows_seen seen) (log_seen seen)) outline.head ≡ false }
    ensures { Decided (rows_seen seen.entry) (log_seen seen.entry) outline.head outline.last outline.sought call result }
{
    let table = GoodTable {
        seen,
        head: outline.head,
    };
    match Sorted::from(call) {
        Sorted::Walk(walk) => near_walk(table, walk),
        Sorted::New(owner, amount) => Decision::Near(new_key(table, owner, amount)),
        Sorted::TryProbe(key) => Decision::Near(try_probe(table, key)),
        Sorted::Rollback(token) => Decision::Near(roll_back(table, outline.sought, token)),
        Sorted::Rest(asked) => Decision::Near(still(on_head(outline, asked))),
    }
}
