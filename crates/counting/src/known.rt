ghost use Rattle.std.specs.Prelude.{◌≡◌, true};
ghost use Rattle.journal.specs.Journal.{valid};
ghost use Rattle.counting.specs.Counted.{known_of};

use crate::count::open_at_end;
use journal::known::Known;
use valid::valid::segments;

// Of a whole journal, behind which no entry waits. That it is valid is asked here, of `open_at_end` and in `replaying`, by a `requires`: a
// struct of the bytes with that fact would be made and taken apart at once, each reader being called where `valid` was.
#[tactic(auto, using(crate::proofs::OpenLaws::segments_counted))]
pub fn known_of(bytes: &[u8]) -> Known
    requires { valid bytes.now ≡ true }
    ensures { result ≡ known_of bytes.now }
{
    Known {
        used: bytes.len(),
        segments: segments(bytes) as u64,
        open: open_at_end(bytes),
        waiting: 0,
    }
}
