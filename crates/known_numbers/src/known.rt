ghost use Rattle.std.specs.Prelude.{◌≡◌, true};
ghost use Rattle.known_numbers.specs.Known.{KNOWN, is_known, known_in, known_numbers};

use journal::known::Known;
use rules::numbers::WORD;

// How many numbers they are: used, segments, open, waiting.
pub const KNOWN: usize = 4;

pub fn is_known(known: &[u64]) -> bool
    ensures { result ≡ is_known known.now }
{
    known.len() == KNOWN && known[2] < WORD
}

// A function, as `put_known` is, and no `From`: neither `Known` nor an array is of this crate, and where each number stands is C's
// (docs/LIBRARY.md).
#[tactic(auto, using(crate::proofs::KnownLaws::four))]
pub fn known_in(known: &[u64]) -> Known
    requires { is_known known.now ≡ true }
    ensures { result ≡ known_in known.now }
{
    Known {
        used: known[0] as usize,
        segments: known[1],
        open: known[2] as u32,
        waiting: known[3] as usize,
    }
}

pub fn put_known(known: &mut [u64; KNOWN], after: Known)
    ensures { known.new ≡ known_numbers after }
{
    known.copy_from_slice(&[
        after.used as u64,
        after.segments,
        after.open as u64,
        after.waiting as u64,
    ]);
}
