// The verb, over memory that is lent for the journal, for the table and for a line.
use crate::behind::record_journal;
use anyhow::{Result, bail};
use std::process::ExitCode;
use std::rt::Files;
use storage::memory::Memory;
use verb_journal::named::Shelf;
use verb_words::verbs::append_words;

// A verb that has its words, which are those of `append` with CALLS for ENTRIES.
pub fn record_verb(
    rt: &(impl Files + Input + Print),
    words: &[String],
    memory: &mut Memory,
) -> Result<ExitCode> {
    let Some(asked) = append_words(words) else {
        bail!("usage: ./meter record JOURNAL CALLS [room N]");
    };
    let shelf = Shelf::find(rt, asked.journal, asked.room, &mut memory.journal)?;
    record_journal(rt, asked.entries, shelf, memory)
}
