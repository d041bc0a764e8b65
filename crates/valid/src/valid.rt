ghost use Rattle.std.specs.Prelude.{◌≡◌, []};
ghost use Rattle.journal.specs.Journal.{journal, journal_of, valid};
ghost use Rattle.valid.specs.Place.{ends_in, Placed, judged, segments_told, followed_by};
ghost use Rattle.valid.specs.Window.{Small};

use crate::place::{Place, before_run};
use crate::window::{NOTHING, Window};
use journal::entry::TRAILER_BYTES;
use little_endian::read::u32_at;
use rules::numbers::MAX_OPEN;

// Whether nothing at all may stand before what was read. Q-1: "a 33rd open snapshot" is never there.
#[tactic(auto, using(crate::proofs::PlaceLaws::some_open, crate::proofs::PlaceLaws::none_open))]
fn starts(segments: usize, window: Window) -> bool
    ensures { result ≡ ends_in segments window (journal 0 []) }
{
    segments == 0 && window.least == 0 && window.rise <= u64::from(MAX_OPEN)
}

// Q-1: "Reading goes from the end to position 0, each trailer pointing further back." A call for each segment would take a stack as long
// as the journal, so a call reads some thousand before it calls itself for the part before them.
#[tactic(auto, using(crate::proofs::PlaceLaws::at_front))]
fn reads_to(bytes: &[u8], place: Place) -> bool
    requires { Placed bytes.now place }
    ensures { result ≡ judged bytes.now place }
{
    if place.end == 0 {
        return starts(place.segments, place.window);
    }
    let Some(before) = before_run(bytes, place) else {
        return false;
    };
    reads_to(bytes, before)
}

// How many segments the last trailer says that there are.
pub fn segments(bytes: &[u8]) -> usize
    ensures { result ≡ segments_told bytes.now }
{
    let Some(at) = bytes.len().checked_sub(TRAILER_BYTES) else {
        return 0;
    };
    u32_at(bytes, at + 8) as usize + 1
}

// Whether bytes are a valid journal, after which what the window says may follow.
#[tactic(auto, using(crate::proofs::PlaceLaws::all_read))]
pub fn admits(bytes: &[u8], window: Window) -> bool
    requires { Small window 0 }
    ensures { result ≡ followed_by window (journal_of bytes.now) }
{
    let all = Place {
        end: bytes.len(),
        segments: segments(bytes),
        window,
    };
    reads_to(bytes, all)
}

// Q-1: "An empty journal is valid. Anything else .. is 12 BAD_JOURNAL". Nothing follows.
#[tactic(auto, using(crate::proofs::PlaceLaws::valid_alone))]
pub fn valid(bytes: &[u8]) -> bool
    ensures { result ≡ valid bytes.now }
{
    admits(bytes, NOTHING)
}
