// `./meter append JOURNAL ENTRIES [room N]`: the bytes of ENTRIES as one segment at the end of JOURNAL. Prints `NO LENGTH`.
#![tactic(auto)]

use crate::verb::append_verb;
use anyhow::Result;
use std::alloc::{AllocError, Global};
use std::process::ExitCode;
use verb_words::answer::ended;
use verb_words::given::program_words;
use verb_words::verbs::{MOST_ROOM, SMALL_ROOM};

mod verb;

fn main(rt: HostRuntime) -> ExitCode {
    ended(&rt, append(&rt))
}

// A journal of 16 MiB takes memory of that size. Where there is less, smaller journals are taken.
fn append(rt: &HostRuntime) -> Result<ExitCode> {
    let words = program_words(rt)?;
    let alloc = rt.alloc();
    let mut buffer = zeros(alloc, MOST_ROOM as usize).or_else(|_| zeros(alloc, SMALL_ROOM))?;
    append_verb(rt, &words, &mut buffer)
}

fn zeros(alloc: Global, length: usize) -> Result<Vec<u8>, AllocError> {
    vec![in alloc; 0; length]
}
