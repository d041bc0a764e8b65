// The mark beside a journal: its length in decimal digits, and a line feed.
ghost use Rattle.std.specs.Prelude.{◌≡◌, ◌++◌, IfOk};
ghost use Rattle.words.specs.Bytes.{bytes as text};
ghost use Rattle.journal_file.specs.Mark.{length_marked};

use digits::put::{Page, put_byte, put_number};
use files::name::{NAME_SPACE, is_absent, is_too_long, name_beside};
use files::read::read_file;
use files::write::write_whole;
use std::io;
use std::rt::Files;
use words::number::read;

// The mark's path.
pub(crate) fn mark_path<'a>(path: &str, space: &'a mut [u8; NAME_SPACE]) -> io::Result<&'a str>
    ensures { IfOk result (λ name. name.now ≡ path.now ++ text ".length") }
{
    name_beside(path, ".length", space)
}

// What a mark's bytes say. One that isn't whole says nothing: none is made so.
pub fn read_mark(text: &[u8]) -> Option<usize>
    ensures { result ≡ length_marked text.now }
{
    let [digits @ .., b'\n'] = text else {
        return None;
    };
    read(digits, u64::MAX).map(|length| length as usize)
}

// The bytes of the mark beside a journal.
fn mark_bytes<'a>(rt: &impl Files, journal: &str, text: &'a mut [u8; 64]) -> io::Result<&'a [u8]> {
    let mut space = [0; NAME_SPACE];
    read_file(rt, mark_path(journal, &mut space)?, text)
}

// What the mark beside a journal says, if there is one. A path that is too long for a mark has none.
pub(crate) fn find_mark(rt: &impl Files, journal: &str) -> io::Result<Option<usize>> {
    let mut text = [0; 64];
    match mark_bytes(rt, journal, &mut text) {
        Ok(mark) => Ok(read_mark(mark)),
        Err(error) if is_absent(&error) || is_too_long(&error) => Ok(None),
        Err(error) => Err(error),
    }
}

// Makes a mark, on disk.
pub(crate) fn make_mark(rt: &impl Files, path: &str, length: usize) -> io::Result<()> {
    let mut text = [0; 32];
    let mut page = Page {
        bytes: &mut text,
        at: 0,
    };
    put_number(&mut page, length as u64);
    put_byte(&mut page, b'\n');
    let end = page.at;
    write_whole(rt, path, &text[..end])
}
