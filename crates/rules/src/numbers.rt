// Document 01, "Limits".
pub const MAX_ROWS: usize = 65536;

pub const MAX_ENTRIES: usize = 1048576;

// How many numbers of `crowns` a row has, and how many of `log` an entry has.
pub const CROWN: usize = 2;

pub const ENTRY: usize = 7;

// An amount in the log is its low word and this many times its high one.
pub const WORD: u64 = 4294967296;

pub const MAX_OPEN: u32 = 32;

pub const MAX_REDIRECTS: u32 = 16;

pub const MAX_RANK: u32 = 16;

// The largest amount, and the last serial.
pub const MAX_U64: u64 = u64::MAX;

// What is answered where nothing is refused. The refusals are in `refusal`.
pub const DONE: u32 = 0;

// The kinds of log entries. Every other number is of no known kind: the host lends them, and a view shows any, so they stay numbers.
pub const KIND_UNKNOWN: u32 = 0;

pub const KIND_NEW: u32 = 1;

pub const KIND_SET: u32 = 2;
