ghost use Rattle.std.specs.Prelude.{◌≡◌, false};
ghost use Rattle.rules.specs.Rules.{rows_seen, log_seen, sizes_of, bad};

use roots::live::Live;
use rules::table::{Head, Seen};

// What is lent of a table, and its head, where neither is bad: BAD_STATE is refused before a call is decided.
#[derive(Clone, Copy)]
pub struct GoodTable<'a> {
    pub seen: Seen<'a>,
    pub head: Head,
    ghost good: { bad (sizes_of (rows_seen seen) (log_seen seen)) head ≡ false },
}

impl<'a> GoodTable<'a> {
    // The parents of its live keys, for walks.
    #[tactic(auto, using(crate::proofs::GoodLaws::table_parents))]
    pub fn live(self) -> Live<'a>
        ensures parents { result.parents.now ≡ self.entry.seen.parents.now }
        ensures count { result.count ≡ self.entry.head.count }
    {
        Live {
            parents: self.seen.parents,
            count: self.head.count,
        }
    }
}
