// The words of each verb. Word 0 is the program's name, and the verb's own is not among them. Words that are no verb's answer nothing.
use crate::option::take_option;
use rules::numbers::{MAX_ENTRIES, MAX_ROWS};

// "a `room` above 16,777,216 bytes, is no verb's words"
pub const MOST_ROOM: u64 = 16777216;

// The longest journal that a program takes where it has no memory for one of so much room.
pub const SMALL_ROOM: usize = 1048576;

// A number of 32 bits.
const MOST_WORD: u64 = u32::MAX as u64;

// `append JOURNAL ENTRIES [room N]`.
#[derive(Clone, Copy)]
pub struct AppendWords<'a> {
    pub journal: &'a str,
    pub entries: &'a str,
    pub room: usize,
}

pub fn append_words(words: &[String]) -> Option<AppendWords<'_>> {
    let [_, journal, entries, options @ ..] = words else {
        return None;
    };
    let (room, rest) = take_option(options, "room", MOST_ROOM).ok()?;
    rest.is_empty().then_some(AppendWords {
        journal,
        entries,
        room: room.unwrap_or(MOST_ROOM) as usize,
    })
}

// `replay JOURNAL [rows N] [log N]`.
#[derive(Clone, Copy)]
pub struct ReplayWords<'a> {
    pub journal: &'a str,
    pub rows: u64,
    pub log: u64,
}

pub fn replay_words(words: &[String]) -> Option<ReplayWords<'_>> {
    let [_, journal, options @ ..] = words else {
        return None;
    };
    let (rows, options) = take_option(options, "rows", MOST_WORD).ok()?;
    let (log, rest) = take_option(options, "log", MOST_WORD).ok()?;
    rest.is_empty().then_some(ReplayWords {
        journal,
        rows: rows.unwrap_or(MAX_ROWS as u64),
        log: log.unwrap_or(MAX_ENTRIES as u64),
    })
}
