// Document 02, Q-1: "Exactly the DONE calls of these six kinds are written, in order."
ghost use Rattle.std.specs.Prelude.{◌≡◌, [], ◌∷◌, length};
ghost use Rattle.journal.specs.Record.{book_in, SameBook, sealed_if_full, put_down};
ghost use Rattle.recording.specs.Barred.{RoomForOne, Sealable};

use crate::segment::seal;
use journal::entry::{ENTRY_BYTES, Entry, SEGMENT};
use journal::known::Book;
use write_entry::entry::put_entry;

// Every 2,048 of them are a segment by themselves.
fn seal_if_full(book: &mut Book<'_>)
    requires { Sealable book.old.known (length book.old.bytes.now) }
    ensures same_book { SameBook book.old book.new }
    ensures sealed { book_in book.new ≡ sealed_if_full book.old.bytes.now book.old.known }
{
    if book.known.waiting >= SEGMENT {
        seal(book);
    }
}

// Puts an entry down, when so many snapshots are open.
pub fn put_down(book: &mut Book<'_>, entry: Entry, opened: u32)
    requires { RoomForOne book.old.known (length book.old.bytes.now) }
    ensures same_book { SameBook book.old book.new }
    ensures put { book_in book.new ≡ put_down book.old.bytes.now book.old.known (entry ∷ []) opened }
{
    let at = book.known.used + ENTRY_BYTES * book.known.waiting;
    put_entry(book.bytes, at, entry);
    book.known.open = opened;
    book.known.waiting += 1;
    seal_if_full(book);
}
