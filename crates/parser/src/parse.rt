// A line as a command: its name has a place in the table of forms, and that place says how wide the numbers may be and
// what they make.
ghost use Rattle.std.specs.Prelude.{◌≡◌, ◌≤◌, ◌<◌, IfSome, length};
ghost use Rattle.std.specs.Option.{unwrap_or};
ghost use Rattle.parser.specs.Command.{command_of, command_with, of_words};
ghost use Rattle.commands.specs.Forms.{form_at, limit, names};
ghost use Rattle.commands.specs.declared.command.Command.TheVariants.{Error};
ghost use Rattle.words.specs.Line.{place_in, words};

use commands::command::Width::{Few, Long, Short};
use commands::command::{Command, Width, make};
use rules::numbers::WORD;
use words::number::read;
use words::words::{Words, place_of};

// The last mark's place.
const LAST_MARK: u64 = 31;

// How wide the numbers of each command are. No command has more than seven.
const WIDTHS: [&[Width]; 24] = [
    &[Short, Long],
    &[],
    &[Short],
    &[Short, Short],
    &[Short, Short],
    &[Short, Short, Long],
    &[Short],
    &[Short],
    &[Short],
    &[],
    &[Long],
    &[Long],
    &[Long],
    &[Long],
    &[Long],
    &[Short, Short],
    &[Short],
    &[],
    &[],
    &[Short, Short, Short, Short, Long],
    &[Short, Short, Short, Short, Short, Short, Long],
    &[Short, Short, Short, Long],
    &[Few, Long, Short, Short],
    &[Short, Short, Short, Short],
];

// The place of a name in the table. The names are one text, searched by place: `names` and `place_in` of the specs say it so.
fn form_of(name: &[u8]) -> Option<usize>
    ensures value { unwrap_or result 24 ≡ place_in names name.now }
    ensures upper_bound { IfSome result (λ form. form < 24) }
{
    place_of(
        b"new len find unioned join post probe probe_key try_probe snapshot rollback commit keys actions changes table row live dump set_row set_entry set_state set_mark lend",
        name,
    )
}

// The largest number of a width. The short ones are keys, owners, ranks and lengths.
fn limit(width: Width) -> u64
    ensures value { result ≡ limit width }
    ensures lower_bound { 9 ≤ result }
{
    match width {
        Width::Short => u64::from(u32::MAX),
        Width::Long => u64::MAX,
        Width::Few => LAST_MARK,
    }
}

// The widths of a form's numbers.
fn widths(form: usize) -> &'static [Width]
    requires { form < 24 }
    ensures value { result.now ≡ (form_at form).widths }
    ensures upper_bound { length result.now ≤ 7 }
{
    WIDTHS[form]
}

// The command of a form whose numbers are these words. It is none where a word is no number that its place holds, and where there are
// too many or too few. Each number is kept as one of 32 bits and as one of 64: with the long ones alone, a cast's bound would have to be
// proved at each use. A short one is cut by `% WORD`, since an `as` asks that its value fits.
fn command_from(form: usize, mut numbers: Words<'_>) -> Option<Command>
    requires { form < 24 }
    ensures { unwrap_or result Error ≡ command_with (form_at form) (words numbers.entry.0.now) }
{
    let mut shorts = [0u32; 7];
    let mut longs = [0u64; 7];
    for (count, &width) in widths(form).iter().enumerate() {
        let value = read(numbers.next()?, limit(width))?;
        shorts[count] = (value % WORD) as u32;
        longs[count] = value;
    }
    match numbers.next() {
        Some(_) => None,
        None => Some(make(form, shorts, longs)),
    }
}

// The command that some words are: its name, and its numbers.
fn of_words(mut line: Words<'_>) -> Option<Command>
    ensures { unwrap_or result Error ≡ of_words (words line.entry.0.now) }
{
    let form = form_of(line.next()?)?;
    command_from(form, line)
}

// A line without its line feed.
pub fn parse(line: &[u8]) -> Command
    ensures { result ≡ command_of line.now }
{
    if line.is_empty() || line[0] == b'#' {
        return Command::Blank;
    }
    of_words(Words(line)).unwrap_or(Command::Error)
}
