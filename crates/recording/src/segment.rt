ghost use Rattle.std.specs.Prelude.{◌≡◌, length};
ghost use Rattle.journal.specs.Record.{book_in, SameBook, sealed, flushed, flush, too_long};
ghost use Rattle.recording.specs.Barred.{no_of, Sealable};

use crate::before::too_long;
use journal::entry::{ENTRY_BYTES, SEGMENT, TRAILER_BYTES};
use journal::known::{Book, Known};
use rules::numbers::{DONE, WORD};
use rules::refusal::Refusal;
use write_entry::entry::put_trailer;

// The waiting entries made a segment.
pub fn seal(book: &mut Book<'_>)
    requires { Sealable book.old.known (length book.old.bytes.now) }
    ensures same_book { SameBook book.old book.new }
    ensures sealed { book_in book.new ≡ sealed book.old.bytes.now book.old.known }
{
    let Known {
        used,
        segments,
        open,
        waiting,
    } = book.known;
    let at = used + ENTRY_BYTES * waiting;
    put_trailer(book.bytes, at, segments as u32, waiting as u32);
    book.known = Known {
        used: at + TRAILER_BYTES,
        segments: segments + 1,
        open,
        waiting: 0,
    };
}

// The waiting entries as a segment, if there are any.
pub fn flush(book: &mut Book<'_>) -> Result<(), Refusal>
    ensures same_book { SameBook book.old book.new }
    ensures flushed { flushed (no_of result) (book_in book.new) ≡ flush book.old.bytes.now book.old.known }
{
    if book.known.waiting == 0 {
        return Ok(());
    }
    if book.known.waiting > SEGMENT || book.known.segments >= WORD || too_long(0, book) {
        return Err(Refusal::BadJournal);
    }
    seal(book);
    Ok(())
}

// What C reads of this, or a command's line says: the number of a refusal, or of none.
pub fn number_of(done: Result<(), Refusal>) -> u32
    ensures { result ≡ no_of done }
{
    match done {
        Ok(()) => DONE,
        Err(why) => why.code(),
    }
}
