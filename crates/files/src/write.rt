use crate::name::{NAME_SPACE, is_absent, name_beside};
use paths::path::directory;
use std::fs::OpenFile;
use std::io::Write;
use std::rt::Files;
use std::{fs, io};

// Writes all of the bytes where the file stands, and waits until they are on disk.
pub fn put_on_disk<F: Write + OpenFile>(file: &mut F, bytes: &[u8]) -> io::Result<()> {
    file.write_all(bytes)?;
    file.sync_all()
}

// Makes the file anew, on disk. Where that fails it is removed again.
fn make_file(rt: &impl Files, path: &str, bytes: &[u8]) -> io::Result<()> {
    let mut file = fs::create(rt, path)?;
    let done = put_on_disk(&mut file, bytes);
    if done.is_err() {
        let _ = fs::remove_file(rt, path);
    }
    done
}

// Waits until the names in the directory in which the file is are on disk.
fn sync_directory(rt: &impl Files, path: &str) -> io::Result<()> {
    fs::open(rt, directory(path).unwrap_or("."))?.sync_all()
}

// Moves a file that is on disk to its name, in the same directory.
fn take_name(rt: &impl Files, from: &str, path: &str) -> io::Result<()> {
    if let Err(why) = fs::rename(rt, from, path) {
        let _ = fs::remove_file(rt, from);
        return Err(why);
    }
    sync_directory(rt, path)
}

// Makes the file, or another of its name anew, whole or not at all: it is written beside, then renamed.
pub fn write_whole(rt: &impl Files, path: &str, bytes: &[u8]) -> io::Result<()> {
    let mut space = [0; NAME_SPACE];
    let beside = name_beside(path, ".unfinished", &mut space)?;
    make_file(rt, beside, bytes)?;
    take_name(rt, beside, path)
}

// Removes the file, if there is one.
pub fn remove(rt: &impl Files, path: &str) -> io::Result<()> {
    match fs::remove_file(rt, path) {
        Ok(()) => sync_directory(rt, path),
        Err(error) if is_absent(&error) => Ok(()),
        Err(error) => Err(error),
    }
}
