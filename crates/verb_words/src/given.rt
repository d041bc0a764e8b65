// The words that the program is given.
use std::rt::Env;
use std::{env, io};

// All of them, the program's name first.
pub fn program_words(rt: &(impl Env + AllocGlobal)) -> io::Result<Vec<String>> {
    let words = env::args(rt)?;
    Ok(words.collect(rt.alloc())?)
}
