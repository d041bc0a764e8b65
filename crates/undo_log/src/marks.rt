ghost use Rattle.std.specs.Prelude.{◌≡◌};
ghost use Rattle.rules.specs.Rules.{unfit};

use rules::table::{Head, Mark};

// Whether a mark cannot be this head's.
pub fn unfit(head: Head, mark: Mark) -> bool
    ensures { result ≡ unfit head mark }
{
    head.used < mark.log_len || head.count < mark.keys
}
