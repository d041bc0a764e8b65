// `./meter record JOURNAL CALLS [room N]`: JOURNAL replayed, then CALLS carried out and written behind it. Prints `NO ENTRY`, and then a
// line for each of CALLS.
#![tactic(auto)]

use crate::verb::record_verb;
use anyhow::Result;
use rules::numbers::{MAX_ENTRIES, MAX_ROWS};
use std::process::ExitCode;
use storage::memory::{Memory, Sizes};
use verb_words::answer::ended;
use verb_words::given::program_words;
use verb_words::verbs::{MOST_ROOM, SMALL_ROOM};

mod behind;
mod verb;

// Document 01's limits, a journal of 16 MiB and a line of 1 MiB take some 48 MB.
const LARGE: Sizes = Sizes {
    rows: MAX_ROWS as u32,
    entries: MAX_ENTRIES as u32,
    line: 1048576,
    journal: MOST_ROOM as usize,
};

// Where there is less, smaller journals, logs and lines are taken.
const SMALL: Sizes = Sizes {
    rows: MAX_ROWS as u32,
    entries: 131072,
    line: 65536,
    journal: SMALL_ROOM,
};

fn main(rt: HostRuntime) -> ExitCode {
    ended(&rt, record(&rt))
}

fn record(rt: &HostRuntime) -> Result<ExitCode> {
    let words = program_words(rt)?;
    let alloc = rt.alloc();
    let mut memory = Memory::new(alloc, LARGE).or_else(|_| Memory::new(alloc, SMALL))?;
    record_verb(rt, &words, &mut memory)
}
