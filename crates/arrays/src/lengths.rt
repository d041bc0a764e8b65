ghost use Rattle.std.specs.Prelude.{◌≡◌, ℕ, min};
ghost use Rattle.rules.specs.Rules.{ENTRY, sizes};
ghost use Rattle.arrays.specs.Cut.{touched, most_rows};
ghost use Rattle.arrays.specs.Room.{nothing, room_for};

use commands::command::Lengths;

// The most rows and entries that can be lent, and their numbers: `crowns` has two to a row, the log seven to an entry.
pub const MOST_ROWS: u32 = 65600;

pub const MOST_CROWNS: u32 = 131200;

pub const MOST_ENTRIES: u32 = 131072;

pub const MOST_LOG: u32 = 917504;

// How much of a part is lent: never more than there is.
pub fn at_most(length: u32, most: usize) -> u32
    ensures { result ≡ min length most }
{
    (length as usize).min(most) as u32
}

// How many rows the longest of the rows' parts reaches, wholly or not.
pub fn most_rows(parents: u32, crowns: u32, amounts: u32) -> u32
    ensures { (log : ℕ) → result ≡ most_rows (sizes parents crowns amounts log) }
{
    parents.max(amounts).max(crowns.div_ceil(2))
}

// How many entries the log reaches, wholly or not.
pub fn most_entries(log: u32) -> u32
    ensures { result ≡ touched log ENTRY }
{
    log.div_ceil(7)
}

// Nothing is lent. A function, since contracts name it.
pub fn nothing() -> Lengths
    ensures { result ≡ nothing }
{
    Lengths::default()
}

// Whether there is room for such lengths.
pub fn room_for(lengths: Lengths) -> bool
    ensures { result ≡ room_for lengths }
{
    lengths.parents <= MOST_ROWS
        && lengths.crowns <= MOST_CROWNS
        && lengths.amounts <= MOST_ROWS
        && lengths.log <= MOST_LOG
}
