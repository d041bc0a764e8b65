// What an exported function that writes a journal returns. Nothing is written before.
ghost use Rattle.std.specs.Prelude.{◌≡◌, cond};
ghost use Rattle.coding.specs.Coding.{call_list};
ghost use Rattle.admit.specs.Admit.{NO-STATE, hearing, code_in};
ghost use Rattle.known_numbers.specs.Known.{is_known};

use crate::known::is_known;
use admit::tests::{Unserved, test_calls};

// Of calls that are written, where a state's numbers are there.
pub fn test_record(calls: &[u64], answers: usize, known: &[u64]) -> Result<(), Unserved>
    ensures { code_in result ≡ cond (is_known known.now) (hearing (call_list calls.now) answers) NO-STATE }
{
    if !is_known(known) {
        return Err(Unserved::NoState);
    }
    test_calls(calls, answers)
}
