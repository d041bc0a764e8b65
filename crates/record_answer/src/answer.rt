ghost use Rattle.digits.specs.Page.{SamePage};

use crate::desk::Desk;
use crate::disk::{is_short, on_disk};
use crate::output::{put_pair, written_out};
use anyhow::Result;
use arrays::reply::{Holding, Reply};
use commands::command::Lengths;
use damage::damage::fresh;
use lent_state::state::state_in;
use line_asked::asked::Asked;
use record_call::call::record_call;
use recording::segment::{flush, number_of};
use rules::call::Call;
use rules::table::State;
use say::say::say;
use show::buffer::Output;
use std::rt::Files;
use verb_journal::named::too_large;

// All of the memory lent, to a table of any state.
fn whole(state: State) -> Holding {
    let lengths = Lengths {
        parents: u32::MAX,
        crowns: u32::MAX,
        amounts: u32::MAX,
        log: u32::MAX,
    };
    Holding { lengths, state }
}

// A call carried out and written: its segment on disk, if it filled one, and then its answer. That says nothing of the state, so any will
// do to print it.
fn answer_call(
    rt: &impl Files,
    desk: &mut Desk<'_>,
    out: &mut Output<'_>,
    call: Call,
    line: u64,
) -> Result<()>
    ensures same_page { SamePage out.old.page out.new.page }
{
    let old = desk.book.known.used;
    let answer = record_call(&mut desk.state, &mut desk.lent, &mut desk.book, call);
    if is_short(answer.no, desk) {
        return Err(too_large(desk.shelf.path));
    }
    on_disk(rt, &mut desk.shelf, &desk.book)?;
    say(
        out,
        whole(fresh()),
        desk.lent.seen(),
        Reply::Answer(call, answer),
        line,
    );
    written_out(out, old, desk.book.known.used);
    Ok(())
}

// "the entries since the last segment as a segment, if there are any -> NO LENGTH"
fn answer_flush(rt: &impl Files, desk: &mut Desk<'_>, out: &mut Output<'_>) -> Result<()>
    ensures same_page { SamePage out.old.page out.new.page }
{
    let old = desk.book.known.used;
    let no = number_of(flush(&mut desk.book));
    on_disk(rt, &mut desk.shelf, &desk.book)?;
    let new = desk.book.known.used;
    put_pair(out, no, new as u64);
    written_out(out, old, new);
    Ok(())
}

// What a line asks for, answered: a call, a segment, or the table shown, an error, or nothing at all.
pub fn answer_line(
    rt: &impl Files,
    desk: &mut Desk<'_>,
    out: &mut Output<'_>,
    asked: Asked,
    line: u64,
) -> Result<()>
    ensures same_page { SamePage out.old.page out.new.page }
{
    match asked {
        Asked::Call(call) => answer_call(rt, desk, out, call, line),
        Asked::Flush => answer_flush(rt, desk, out),
        Asked::Say(reply) => {
            say(
                out,
                whole(state_in(&desk.state)),
                desk.lent.seen(),
                reply,
                line,
            );
            Ok(())
        }
    }
}
