// A turn of the program: a line gathered, its command carried out, its reply printed.
ghost use Rattle.std.specs.Prelude.{◌≡◌, ◌<◌};
ghost use Rattle.rules.specs.Rules.{table_in, SameParts};
ghost use Rattle.digits.specs.Page.{SamePage};
ghost use Rattle.meter.specs.Turn.{page_of, replying, answering, turned, turning};

use lines::line::command_of;
use memory::change::change_in;
use reading::read::{Reading, go_on, refill_into, take_into};
use rules::table::Lent;
use say::say::say;
use show::buffer::Output;
use std::io::Read;

// One turn: more input where there is none at hand, then bytes up to a line's end, and where it is reached, the line's answer.
// What is read nobody knows before; where some is at hand, nothing is.
pub fn turn<R: Read>(
    reading: &mut Reading,
    source: &mut R,
    lent: &mut Lent<'_>,
    input: &mut [u8],
    line: &mut [u8],
    out: &mut Output<'_>,
)
    ensures same_parts { SameParts lent.old lent.new }
    ensures same_page { SamePage out.old.page out.new.page }
    ensures out_after { turned reading.new (table_in lent.new) line.new (page_of out.new.page)
        ≡ turning reading.old (table_in lent.old) line.old (page_of out.old.page) input.new reading.new.count }
    ensures input_unchanged { reading.old.from < reading.old.count → input.new ≡ input.old }
{
    refill_into(reading, source, input);
    take_into(reading, input, line);
    if reading.ended {
        answer(reading, lent, line, out);
    }
}

// A line's command carried out, and its reply printed.
fn answer(reading: &mut Reading, lent: &mut Lent<'_>, line: &[u8], out: &mut Output<'_>)
    ensures same_parts { SameParts lent.old lent.new }
    ensures same_page { SamePage out.old.page out.new.page }
    ensures value { replying reading.new (table_in lent.new) (page_of out.new.page)
        ≡ answering reading.old (table_in lent.old) line.now (page_of out.old.page) }
{
    let command = command_of(line, reading.kept);
    let reply = change_in(&mut reading.holding, lent, command);
    say(out, reading.holding, lent.seen(), reply, reading.line);
    go_on(reading);
}
