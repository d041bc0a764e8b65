// `./meter replay JOURNAL [rows N] [log N]`: JOURNAL replayed into a fresh table. Prints `NO ENTRY`, and unless NO is 12 the table.
#![tactic(auto)]

use anyhow::Result;
use replay_verb::verb::replay_verb;
use rules::numbers::{MAX_ENTRIES, MAX_ROWS};
use std::process::ExitCode;
use storage::memory::{Memory, Sizes};
use verb_words::answer::ended;
use verb_words::given::program_words;
use verb_words::verbs::{MOST_ROOM, SMALL_ROOM};

// A row and an entry more than document 01's limits, so that more than they allow can be lent, and a journal of 16 MiB take some 48 MB.
const LARGE: Sizes = Sizes {
    rows: MAX_ROWS as u32 + 1,
    entries: MAX_ENTRIES as u32 + 1,
    line: 0,
    journal: MOST_ROOM as usize,
};

// Where there is less, smaller journals and logs are taken.
const SMALL: Sizes = Sizes {
    rows: MAX_ROWS as u32 + 1,
    entries: 131072,
    line: 0,
    journal: SMALL_ROOM,
};

fn main(rt: HostRuntime) -> ExitCode {
    ended(&rt, replay(&rt))
}

fn replay(rt: &HostRuntime) -> Result<ExitCode> {
    let words = program_words(rt)?;
    let alloc = rt.alloc();
    let mut memory = Memory::new(alloc, LARGE).or_else(|_| Memory::new(alloc, SMALL))?;
    replay_verb(rt, &words, &mut memory)
}
