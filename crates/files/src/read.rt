ghost use Rattle.std.specs.Prelude.{◌≤◌, length, IfOk};

use std::io::{Error, ErrorKind, Read};
use std::rt::Files;
use std::{fs, io};

// Reads until the buffer is full or the file ends, and answers what was read. A file that can't be read on is an error, and not a shorter
// file: a journal that is read in part may be a valid one.
fn fill<'a, F: Read>(file: &mut F, buffer: &'a mut [u8]) -> io::Result<&'a [u8]>
    ensures { IfOk result (λ part. length part.now ≤ length buffer.old) }
{
    // How far one read goes is the file's to say, so no range has these places.
    let mut done = 0;
    while done < buffer.len() {
        let count = file.read(&mut buffer[done..])?;
        if count == 0 {
            break;
        }
        done += count;
    }
    Ok(&buffer[..done])
}

// The file's first bytes, in the buffer: as many as the buffer has room for, or all where it has fewer.
pub fn read_front<'a>(rt: &impl Files, path: &str, buffer: &'a mut [u8]) -> io::Result<&'a [u8]>
    ensures { IfOk result (λ part. length part.now ≤ length buffer.old) }
{
    fill(&mut fs::open(rt, path)?, buffer)
}

// The whole file, in the buffer. One that goes on past the buffer's end is an error, `FileTooLarge`.
pub fn read_file<'a>(rt: &impl Files, path: &str, buffer: &'a mut [u8]) -> io::Result<&'a [u8]>
    ensures { IfOk result (λ part. length part.now ≤ length buffer.old) }
{
    let mut file = fs::open(rt, path)?;
    let bytes = fill(&mut file, buffer)?;
    at_end(&mut file)?;
    Ok(bytes)
}

// That the file has ended. At a file's end one more byte can be asked for and none comes.
fn at_end<F: Read>(file: &mut F) -> io::Result<()> {
    let mut more = [0u8; 1];
    if file.read(&mut more)? > 0 {
        return Err(Error::new(ErrorKind::FileTooLarge, "larger than the program takes"));
    }
    Ok(())
}
