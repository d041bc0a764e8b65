ghost use Rattle.digits.specs.Page.{SamePage};

use digits::put::{Page, put_byte, put_next, put_number};
use show::buffer::{Output, flush, word};

// `NO NUMBER` and a line feed.
pub fn put_pair(out: &mut Output<'_>, no: u32, number: u64)
    ensures same_page { SamePage out.old.page out.new.page }
{
    let mut text = [0; 64];
    let mut line = Page {
        bytes: &mut text,
        at: 0,
    };
    put_number(&mut line, u64::from(no));
    put_next(&mut line, number);
    put_byte(&mut line, b'\n');
    let end = line.at;
    word(out, &text[..end]);
}

// Where the journal grew, all is written out that was printed: who waits for the answer learns that it is on disk.
pub(crate) fn written_out(out: &mut Output<'_>, old: usize, new: usize)
    ensures same_page { SamePage out.old.page out.new.page }
{
    if new > old {
        flush(out);
    }
}
