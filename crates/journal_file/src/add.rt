use crate::mark::{make_mark, mark_path};
use files::name::NAME_SPACE;
use files::write::{put_on_disk, remove, write_whole};
use std::fs::{OpenFile, OpenOptions};
use std::io::{Seek, SeekFrom, Write};
use std::rt::Files;
use std::{fs, io};

// Adds a segment to a journal, after its first `old` bytes, or makes the journal of it where there is none. When this answers `Ok` the
// segment is on disk; where it answers an error the journal is as it was, or the segment is there whole (where only the last word of the
// disk is missing).
pub fn add_segment(
    rt: &impl Files,
    path: &str,
    old: Option<usize>,
    segment: &[u8],
) -> io::Result<()> {
    let mut space = [0; NAME_SPACE];
    let mark = mark_path(path, &mut space)?;
    let Some(old) = old else {
        // A mark that is left of an older journal of this name, since removed, is not about this one.
        remove(rt, mark)?;
        return write_whole(rt, path, segment);
    };
    let mut options = OpenOptions::new();
    options.read(true).write(true);
    let mut file = options.open(rt, path)?;
    let mut growing = Growing {
        file: &mut file,
        mark,
        old,
    };
    growing.extend(rt, segment)
}

// A journal's file that is being extended after its first `old` bytes, and the path of the mark that says so meanwhile.
#[derive(Drop)]
struct Growing<'a, F> {
    file: &'a mut F,
    mark: &'a str,
    old: usize,
}

impl<F: Write + Seek + OpenFile> Growing<'_, F> {
    // Extends the journal: the mark, the segment, then the mark's end.
    fn extend(&mut self, rt: &impl Files, segment: &[u8]) -> io::Result<()> {
        if let Err(why) = self.put_marked(rt, segment) {
            let _ = self.take_back(rt);
            return Err(why);
        }
        remove(rt, self.mark)
    }

    // The mark, and then the segment after the old bytes, on disk.
    fn put_marked(&mut self, rt: &impl Files, segment: &[u8]) -> io::Result<()> {
        make_mark(rt, self.mark, self.old)?;
        self.cut()?;
        put_on_disk(self.file, segment)
    }

    // Cuts the file to its old length: what stands after it is of a segment that was never finished.
    fn cut(&mut self) -> io::Result<()> {
        self.file.set_len(self.old as u64)?;
        self.file.seek(SeekFrom::Start(self.old as u64))?;
        Ok(())
    }

    // After a failure: the file as it was, then no mark. Where it can't be cut the mark stays, and says the same.
    fn take_back(&mut self, rt: &impl Files) -> io::Result<()> {
        self.cut()?;
        self.file.sync_all()?;
        fs::remove_file(rt, self.mark)
    }
}
