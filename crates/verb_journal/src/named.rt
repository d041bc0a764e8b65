ghost use Rattle.std.specs.Prelude.{◌≡◌, ◌≤◌, length, IfOk, IfSome};
ghost use Rattle.std.specs.Option.{unwrap_or};

use anyhow::{Context, Error, Result};
use journal_file::read::read_journal;
use std::io::ErrorKind;
use std::rt::Files;

// Where a journal is kept: its path, how many bytes of it are on disk, if its file is there, and how long it may become.
#[derive(Clone, Copy)]
pub struct Shelf<'a> {
    pub path: &'a str,
    pub kept: Option<usize>,
    pub room: usize,
}

impl<'a> Shelf<'a> {
    // The shelf of this path, with the journal that stands on it.
    pub fn find(rt: &impl Files, path: &'a str, room: usize, bytes: &mut [u8]) -> Result<Shelf<'a>>
        ensures { IfOk result (λ shelf. IfSome shelf.kept (λ count. count ≤ length bytes.new)) }
    {
        let kept = found_journal(rt, path, bytes)?;
        Ok(Shelf { path, kept, room })
    }

    // How many bytes the journal has: none where there is no file.
    pub fn used(self) -> usize
        ensures { result ≡ unwrap_or self.entry.kept 0 }
    {
        self.kept.unwrap_or(0)
    }
}

// That a journal is longer than the program has memory for.
pub fn too_large(path: &str) -> Error {
    Error::msg("larger than the program takes").context(path)
}

// The journal of this path.
pub fn journal_named<'a>(rt: &impl Files, path: &str, bytes: &'a mut [u8]) -> Result<&'a [u8]>
    ensures { IfOk result (λ journal. length journal.now ≤ length bytes.old) }
{
    read_journal(rt, path, bytes).context(path)
}

// The journal of this path, if its file is there. "A missing JOURNAL is an empty one for `append` and `record` alone."
fn found_journal(rt: &impl Files, path: &str, bytes: &mut [u8]) -> Result<Option<usize>>
    ensures { IfOk result (λ found. IfSome found (λ count. count ≤ length bytes.new)) }
{
    match read_journal(rt, path, bytes) {
        Ok(journal) => Ok(Some(journal.len())),
        Err(why) if why.kind() == ErrorKind::NotFound => Ok(None),
        Err(why) => Err(why).context(path),
    }
}
