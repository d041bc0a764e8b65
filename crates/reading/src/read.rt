ghost use Rattle.std.specs.Prelude.{◌≡◌, ◌≤◌, List, ℕ, ◌<◌, IfOk, OnErr};
ghost use Rattle.lines.specs.Lines.{line, reached};
ghost use Rattle.reading.specs.Taking.{beginning, reading as reading_of, filled, took, taking, line_number, ends_at, next_line};

use arrays::lengths::nothing;
use arrays::reply::Holding;
use damage::damage::fresh;
use lines::gather::{Gathered, Kept, gather};
use std::io;
use std::io::Read;

// A list of calls that is being read: what goes from line to line, the line so far, and the part of the input that is at hand.
// `more` and `ended` are flags, since the other fields are read in both cases.
#[derive(Clone, Copy)]
pub struct Reading {
    pub holding: Holding,
    pub line: u64,
    pub kept: Kept,
    pub from: usize,
    pub count: usize,
    pub more: bool,
    pub ended: bool,
}

// Nothing lent and nothing read.
pub fn begin() -> Reading
    ensures { result ≡ beginning }
{
    Reading {
        holding: Holding {
            lengths: nothing(),
            state: fresh(),
        },
        line: 0,
        kept: Kept::default(),
        from: 0,
        count: 0,
        more: true,
        ended: false,
    }
}

// More input, where none is at hand and there is any.
pub fn read_more<R: Read>(reading: Reading, source: &mut R, input: &mut [u8]) -> io::Result<Reading>
    ensures ok { IfOk result (λ more. more ≡ filled reading more.count) }
    ensures err { OnErr result (reading.count ≤ reading.from) }
    ensures input_unchanged { reading.from < reading.count → input.new ≡ input.old }
{
    if reading.from < reading.count {
        return Ok(reading);
    }
    let count = source.read(input)?;
    let mut after = reading;
    start_over(&mut after, count);
    Ok(after)
}

// The same, but input that can't be read has ended. The reading is lent, here and from line to line: it has a state with all its marks in
// it, and with copies of it a short line takes twice as long (docs/BENCHMARKS.md, 'The program').
pub fn refill_into<R: Read>(reading: &mut Reading, source: &mut R, input: &mut [u8])
    ensures value { reading.new ≡ filled reading.old reading.new.count }
    ensures input_unchanged { reading.old.from < reading.old.count → input.new ≡ input.old }
{
    if reading.from < reading.count {
        return;
    }
    let count = source.read(input).unwrap_or(0);
    start_over(reading, count);
}

// The same of a reading by value.
pub fn refill<R: Read>(reading: Reading, source: &mut R, input: &mut [u8]) -> Reading
    ensures value { result ≡ filled reading result.count }
    ensures input_unchanged { reading.from < reading.count → input.new ≡ input.old }
{
    let mut after = reading;
    refill_into(&mut after, source, input);
    after
}

// So much of the input is at hand, none of it read; with nothing at hand it has ended.
fn start_over(reading: &mut Reading, count: usize)
    ensures { reading.new ≡ reading_of reading.old count }
{
    reading.from = 0;
    reading.count = count;
    reading.more = count > 0;
}

// Both buffers are the caller's, of a fixed size: neither input nor a line makes them grow.
// Gathers bytes of a line. It ends at a line feed, or with the input, if it has begun.
pub fn take_into(reading: &mut Reading, input: &[u8], line: &mut [u8])
    ensures { took reading.new line.new ≡ taking reading.old line.old input.now }
{
    let got = gather(line, reading.kept, input, reading.from, reading.count);
    let ended = ends(reading.more, got);
    reading.line = line_number(reading.line, ended);
    reading.kept = got.kept;
    reading.from = got.next;
    reading.ended = ended;
}

// The same of a reading by value.
pub fn take(reading: Reading, input: &[u8], line: &mut [u8]) -> Reading
    ensures { took result line.new ≡ taking reading line.old input.now }
{
    let mut after = reading;
    take_into(&mut after, input, line);
    after
}

fn ends(more: bool, got: Gathered) -> bool
    ensures { (b : List ℕ) → result ≡ ends_at more (reached (line b got.kept.n got.kept.overlong) got.next got.ended) }
{
    if more { got.ended } else { got.kept.n > 0 }
}

// The number of a line once it has ended: one more.
fn line_number(line: u64, ended: bool) -> u64
    ensures { result ≡ line_number line ended }
{
    if ended { line.saturating_add(1) } else { line }
}

// Ready for the next line.
pub fn go_on(reading: &mut Reading)
    ensures { reading.new ≡ next_line reading.old reading.old.holding }
{
    reading.kept = Kept::default();
    reading.ended = false;
}

// The same of a reading by value, with what is held from then on.
pub fn next_line(reading: Reading, holding: Holding) -> Reading
    ensures { result ≡ next_line reading holding }
{
    let mut after = reading;
    after.holding = holding;
    go_on(&mut after);
    after
}
