ghost use Rattle.std.specs.Prelude.{◌≤◌, length, IfOk};

use crate::mark::find_mark;
use files::read::{read_file, read_front};
use std::io;
use std::rt::Files;

// Reads a journal into the buffer: all of its file, or as much as a mark beside it says. Where the buffer has no room for so much, a file
// that fits has fewer bytes, and all of them count.
pub fn read_journal<'a>(rt: &impl Files, path: &str, buffer: &'a mut [u8]) -> io::Result<&'a [u8]>
    ensures { IfOk result (λ journal. length journal.now ≤ length buffer.old) }
{
    match find_mark(rt, path)? {
        Some(most) if most <= buffer.len() => read_front(rt, path, &mut buffer[..most]),
        _ => read_file(rt, path, buffer),
    }
}
