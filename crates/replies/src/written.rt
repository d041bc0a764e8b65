// The lines that answer: an error, a call's answer, a row, and all that there is.
ghost use Rattle.std.specs.Prelude.{[], ◌∷◌, ◌≤◌, length};
ghost use Rattle.rules.specs.Rules.{rows_seen, table_seen};
ghost use Rattle.digits.specs.Page.{SamePage};
ghost use Rattle.print.specs.Texts.{error_text};
ghost use Rattle.show.specs.Pieces.{ROOM, Says};
ghost use Rattle.replies.specs.Replies.{onward, answer_pieces, look_pieces, shown_pieces};

use print::print::put_state;
use print_answer::answer::{put_answer, put_error};
use rules::call::{Answer, Call};
use rules::table::{Head, Seen, State};
use show::buffer::{Output, room, word};
use show::show::{entries, marks, row_cells, rows};
use show::since::entries_since;

// That a line is no command, or one that could not be done.
pub fn error(out: &mut Output<'_>, line: u64)
    ensures same_page { SamePage out.old.page out.new.page }
    ensures said { Says out.old.page out.new.page (error_text line ∷ []) }
{
    room(out);
    put_error(&mut out.page, line);
}

// A call's answer, and the entries that it goes on with.
pub fn answered(out: &mut Output<'_>, log: &[u32], call: Call, answer: Answer)
    ensures same_page { SamePage out.old.page out.new.page }
    ensures said { Says out.old.page out.new.page (answer_pieces log.now call answer) }
{
    room(out);
    put_answer(&mut out.page, answer);
    put_onward(out, log, call, answer);
    word(out, b"\n");
}

// The entries that an answer goes on with: those that `actions` is about, none where it is refused, and none after any other call.
fn put_onward(out: &mut Output<'_>, log: &[u32], call: Call, answer: Answer)
    ensures same_page { SamePage out.old.page out.new.page }
    ensures said { Says out.old.page out.new.page (onward log.now call answer) }
{
    if let Call::Actions(_) = call {
        entries_since(out, log, answer.from, answer.to);
    }
}

// A row, or that there is none.
pub fn row(out: &mut Output<'_>, seen: Seen<'_>, all: Head, key: u32)
    ensures same_page { SamePage out.old.page out.new.page }
    ensures said { Says out.old.page out.new.page (look_pieces (rows_seen seen.entry) all.count key) }
{
    if key >= all.count {
        word(out, b"none\n");
        return;
    }
    word(out, b"row");
    row_cells(out, seen, key);
    word(out, b"\n");
}

// Rows, entries, the state and marks: so many of each as a head says.
pub fn shown(out: &mut Output<'_>, name: &[u8], state: State, seen: Seen<'_>, head: Head)
    requires { length name.now ≤ ROOM }
    ensures same_page { SamePage out.old.page out.new.page }
    ensures said { Says out.old.page out.new.page (shown_pieces name.now (table_seen seen.entry state) head) }
{
    word(out, name);
    rows(out, seen, head.count);
    word(out, b" log");
    entries(out, seen.log, head.used);
    room(out);
    put_state(&mut out.page, state);
    marks(out, state, head.open);
    word(out, b"\n");
}
