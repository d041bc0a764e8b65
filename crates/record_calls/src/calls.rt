ghost use Rattle.digits.specs.Page.{SamePage};

use crate::input::read_on;
use anyhow::{Context, Result};
use line_asked::asked::line_asked;
use lines::gather::Kept;
use reading::read::{Reading, begin};
use record_answer::answer::answer_line;
use record_answer::desk::Desk;
use record_answer::disk::on_disk;
use record_answer::output::put_pair;
use recording::segment::flush;
use show::buffer::{Output, flush as write_out};
use std::io::Read;
use std::process::ExitCode;
use std::rt::Files;
use verb_words::answer::answered;

// The lines one after the other. A proved loop has to end, and nothing says that the input does: so turns are counted, to a number that no
// run uses up.
fn answer_all<R: Read>(
    rt: &impl Files,
    desk: &mut Desk<'_>,
    out: &mut Output<'_>,
    source: &mut R,
    line: &mut [u8],
) -> Result<()>
    ensures same_page { SamePage out.old.page out.new.page }
{
    let mut input = [0; 65536];
    let mut reading = begin();
    'lines: for _ in 0..u64::MAX {
        if !reading.more {
            break;
        }
        reading = read_on(source, reading, &mut input, line).context("CALLS")?;
        if reading.ended {
            let asked = line_asked(line, reading.kept);
            answer_line(rt, desk, out, asked, reading.line)?;
            reading = Reading {
                kept: Kept::default(),
                ended: false,
                ..reading
            };
        }
    }
    Ok(())
}

// The end of the list: what waits is put on disk as a segment, and then all is written out that was printed. A journal that has no room for
// the segment stays as it is.
fn finish(rt: &impl Files, desk: &mut Desk<'_>, out: &mut Output<'_>) -> Result<ExitCode> {
    let _ = flush(&mut desk.book);
    on_disk(rt, &mut desk.shelf, &desk.book)?;
    write_out(out);
    Ok(answered(0))
}

// The calls of a list recorded behind a journal that was replayed, of so many entries. Of a list that is given up, what was not yet
// written out is not printed.
pub fn record_calls<R: Read>(
    rt: &impl Files,
    desk: &mut Desk<'_>,
    entries: u64,
    source: &mut R,
    line: &mut [u8],
) -> Result<ExitCode> {
    let mut bytes = [0; 65536];
    let mut out = Output::new(&mut bytes);
    put_pair(&mut out, 0, entries);
    answer_all(rt, desk, &mut out, source, line)?;
    finish(rt, desk, &mut out)
}
