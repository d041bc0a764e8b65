// Whether what a call writes fits the log of a table that is not bad.
ghost use Rattle.std.specs.Prelude.{◌≡◌, ◌<◌};
ghost use Rattle.rules.specs.Rules.{log_seen, entries};
ghost use Rattle.plans.specs.Plans.{lacks, fitted};

use crate::good::GoodTable;
use plans::room::{fitted, lacks};
use plans::verdict::Planned;
use rules::numbers::ENTRY;
use rules::refusal::Refusal;

impl GoodTable<'_> {
    // Whether a snapshot is open and so many entries exceed the free ones.
    #[tactic(auto, using(crate::proofs::GoodLaws::table_used))]
    pub fn lacks(self, more: usize) -> bool
        ensures { let t = self.entry in
            result ≡ lacks t.head.«open» t.head.used (entries (log_seen t.seen)) more }
    {
        let GoodTable { seen, head } = self;
        lacks(head.open, head.used, seen.log.len() / ENTRY, more)
    }

    // LOG_FULL where the entries of the walks and of the end do not fit.
    #[tactic(auto, using(crate::proofs::GoodLaws::table_used))]
    pub fn fitted(
        self,
        verdict: Result<Planned, Refusal>,
        walked: usize,
    ) -> Result<Planned, Refusal>
        requires { walked < 64 }
        ensures { let t = self.entry in
            result ≡ fitted t.head.«open» t.head.used (entries (log_seen t.seen)) walked verdict }
    {
        let GoodTable { seen, head } = self;
        fitted(
            verdict,
            head.open,
            head.used,
            seen.log.len() / ENTRY,
            walked,
        )
    }
}
