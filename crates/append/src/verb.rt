// The verb, over a buffer that is lent for the journal.
use anyhow::{Context, Result, bail};
use files::read::read_front;
use journal_append::bytes::append_bytes;
use std::process::ExitCode;
use std::rt::Files;
use verb_journal::named::Shelf;
use verb_words::verbs::append_words;

// A verb that has its words. A byte more of ENTRIES is read than a segment's entries have, since a longer file is refused as that is.
pub fn append_verb(
    rt: &(impl Files + Print),
    words: &[String],
    buffer: &mut [u8],
) -> Result<ExitCode> {
    let Some(asked) = append_words(words) else {
        bail!("usage: ./meter append JOURNAL ENTRIES [room N]");
    };
    let mut space = [0; 49153];
    let entries = read_front(rt, asked.entries, &mut space).context(asked.entries)?;
    let shelf = Shelf::find(rt, asked.journal, asked.room, buffer)?;
    append_bytes(rt, shelf, entries, buffer)
}
