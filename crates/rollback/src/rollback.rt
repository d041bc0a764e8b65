ghost use Rattle.std.specs.Prelude.{◌≡◌};
ghost use Rattle.rules.specs.Rules.{rolled_back};
ghost use Rattle.rollback.specs.Since.{Logged, broken};

use rules::table::{Head, Mark};

// Whether a mark cannot be this head's, or the entries since cannot be undone down to it.
#[tactic(auto, unfolding(crate::specs::Since::broken), using(crate::proofs::RollbackLaws::fit))]
pub fn broken(head: Head, mark: Mark, log: &[u32]) -> bool
    requires { Logged head.used log.now }
    ensures { result ≡ broken head mark log.now }
{
    undo_log::marks::unfit(head, mark)
        || !crate::undo::undoable(log, mark.log_len, head.used, mark.keys, head.count)
}

// The head as it was when the mark was made, with its snapshot closed.
pub fn rolled_back(head: Head, mark: Mark) -> Head
    ensures { result ≡ rolled_back head mark }
{
    Head {
        count: mark.keys,
        used: mark.log_len,
        open: undo_log::tokens::closed(head.open),
    }
}
