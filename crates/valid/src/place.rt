// A journal is read from its end, one trailer after the other.
ghost use Rattle.std.specs.Prelude.{◌≡◌, ◌<◌};
ghost use Rattle.journal.specs.Journal.{points};
ghost use Rattle.valid.specs.Place.{back, Placed, Before};

use crate::window::Window;
use journal::entry::{ENTRY_BYTES, SEGMENT, TRAILER_BYTES};
use little_endian::read::u32_at;

// What is still to be read: the bytes up to an end, which must be so many segments, after which what the window says may follow.
#[derive(Clone, Copy)]
pub struct Place {
    pub end: usize,
    pub segments: usize,
    pub window: Window,
}

// Whether a trailer at a place points back to the first byte of 1 to 2048 entries.
fn points_back(distance: usize, count: usize, at: usize) -> bool
    ensures { result ≡ points (back distance count) at }
{
    (1..=SEGMENT).contains(&count) && distance == ENTRY_BYTES * count && distance <= at
}

// Before the last segment, if one stands there.
fn before_last(bytes: &[u8], place: Place) -> Option<Place>
    requires { Placed bytes.now place × (0 < place.end) }
    ensures { Before bytes.now place result }
{
    if place.end < TRAILER_BYTES {
        return None;
    }
    let at = place.end - TRAILER_BYTES;
    let distance = u32_at(bytes, at) as usize;
    let count = u32_at(bytes, at + 4) as usize;
    if !points_back(distance, count, at) {
        return None;
    }
    let number = u32_at(bytes, at + 8) as usize;
    if number + 1 != place.segments {
        return None;
    }
    let start = at - distance;
    Some(Place {
        end: start,
        segments: number,
        window: place.window.narrow_all(bytes, start, count),
    })
}

// How many segments are read in one go.
const RUN: usize = 4096;

// Before the last segments, as many as are read in one go.
pub fn before_run(bytes: &[u8], place: Place) -> Option<Place>
    requires { Placed bytes.now place × (0 < place.end) }
    ensures { Before bytes.now place result }
{
    let mut now = place;
    for _ in 0..RUN {
        if now.end == 0 {
            break;
        }
        now = before_last(bytes, now)?;
    }
    Some(now)
}
