ghost use Rattle.std.specs.Prelude.{◌≡◌, [], ◌∷◌, ◌+◌, ◌≤◌, length};
ghost use Rattle.digits.specs.Page.{SamePage};
ghost use Rattle.show.specs.Pieces.{ROOM, placed, Says};

use digits::put::{Page, put_bytes};
use print::print::ROOM;

// What a program prints into: a page that has room for any piece, once it is written out.
#[derive(Drop)]
pub struct Output<'a> {
    pub page: Page<'a>,
    ghost roomy: { ROOM ≤ length page.bytes.now },
}

impl<'a> Output<'a> {
    // Nothing is printed yet.
    pub fn new(bytes: &'a mut [u8]) -> Output<'a>
        requires { ROOM ≤ length bytes.old }
        ensures same_reference { result.page.bytes.ghost_name ≡ bytes.entry.ghost_name }
        ensures bytes { result.page.bytes.now ≡ bytes.old }
        ensures place { result.page.at ≡ 0 }
    {
        Output {
            page: Page { bytes, at: 0 },
        }
    }
}

// Writes out what bytes of any length hold before a place, and leaves them as they are. Answers where printing goes on: at their start.
pub fn flush_bytes(bytes: &[u8], at: usize) -> usize
    ensures { result ≡ 0 }
{
    if let Some(printed) = bytes.get(..at) {
        io::write_all(1, printed);
    }
    0
}

// Writes out what was printed. Printing goes on at the page's start.
pub fn flush(out: &mut Output<'_>)
    ensures same_page { SamePage out.old.page out.new.page }
    ensures bytes { out.new.page.bytes.now ≡ out.old.page.bytes.now }
    ensures place { out.new.page.at ≡ 0 }
{
    let page = &mut out.page;
    // Through a `&mut`: read as `&[u8]` straight from the page, it is not known to be as it was.
    let bytes = &mut *page.bytes;
    page.at = flush_bytes(bytes, page.at);
}

// Makes room for one piece: where there is too little, what was printed is written out first.
pub fn room(out: &mut Output<'_>)
    ensures same_page { SamePage out.old.page out.new.page }
    ensures bytes { out.new.page.bytes.now ≡ out.old.page.bytes.now }
    ensures place { out.new.page.at ≡ placed (length out.old.page.bytes.now) out.old.page.at }
    ensures in_bounds { out.new.page.at + ROOM ≤ length out.old.page.bytes.now }
{
    if out.page.at > out.page.bytes.len() - ROOM {
        flush(out);
    }
}

// A few bytes.
pub fn word(out: &mut Output<'_>, text: &[u8])
    requires { length text.now ≤ ROOM }
    ensures same_page { SamePage out.old.page out.new.page }
    ensures said { Says out.old.page out.new.page (text.now ∷ []) }
{
    room(out);
    put_bytes(&mut out.page, text);
}
