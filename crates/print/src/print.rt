// Rows, entries, marks and states, printed at a page's place. The caller leaves room: none of them is longer than `ROOM`.
ghost use Rattle.std.specs.Prelude.{◌+◌, ◌≤◌, length};
ghost use Rattle.words.specs.Bytes.{bytes as text};
ghost use Rattle.digits.specs.Page.{SamePage, Prints, Moves};
ghost use Rattle.print.specs.Texts.{cell_text, row_text, kind_text, mark_text, state_text};

use digits::put::{Page, put_bytes, put_list, put_next};
use rules::table::{Mark, State};

// The most that one piece takes.
pub const ROOM: usize = 256;

// A row's four lent numbers, each where there is one at its place.
#[derive(Clone, Copy)]
pub struct Cells {
    pub parent: Option<u64>,
    pub rank: Option<u64>,
    pub owner: Option<u64>,
    pub amount: Option<u64>,
}

// A blank and a lent number, `-` where there is none.
pub fn put_cell(page: &mut Page<'_>, cell: Option<u64>)
    requires { page.old.at + 21 ≤ length page.old.bytes.now }
    ensures same_page { SamePage page.old page.new }
    ensures printed { Prints page.old page.new (cell_text cell) }
    ensures moves { Moves page.old page.new 21 }
{
    match cell {
        Some(n) => put_next(page, n),
        None => put_bytes(page, b" -"),
    }
}

// A row's four numbers.
pub fn put_row(page: &mut Page<'_>, row: Cells)
    requires { page.old.at + 84 ≤ length page.old.bytes.now }
    ensures same_page { SamePage page.old page.new }
    ensures printed { Prints page.old page.new (row_text row.parent row.rank row.owner row.amount) }
    ensures moves { Moves page.old page.new 84 }
{
    put_cell(page, row.parent);
    put_cell(page, row.rank);
    put_cell(page, row.owner);
    put_cell(page, row.amount);
}

// ` |`, which parts rows, entries and marks.
pub fn put_bar(page: &mut Page<'_>)
    requires { page.old.at + 2 ≤ length page.old.bytes.now }
    ensures same_page { SamePage page.old page.new }
    ensures printed { Prints page.old page.new (text " |") }
    ensures moves { Moves page.old page.new 2 }
{
    put_bytes(page, b" |");
}

// The kind and the key of an entry, after a bar; its row follows.
pub fn put_kind(page: &mut Page<'_>, kind: Option<u64>, key: Option<u64>)
    requires { page.old.at + 44 ≤ length page.old.bytes.now }
    ensures same_page { SamePage page.old page.new }
    ensures printed { Prints page.old page.new (kind_text kind key) }
    ensures moves { Moves page.old page.new 44 }
{
    put_bar(page);
    put_cell(page, kind);
    put_cell(page, key);
}

// A mark, after a bar.
#[tactic(auto, using(digits::proofs::PrintLaws::then))]
pub fn put_mark(page: &mut Page<'_>, mark: Mark)
    requires { page.old.at + ROOM ≤ length page.old.bytes.now }
    ensures same_page { SamePage page.old page.new }
    ensures printed { Prints page.old page.new (mark_text mark) }
    ensures moves { Moves page.old page.new ROOM }
{
    let numbers = [mark.serial, mark.log_len as u64, mark.keys as u64];
    put_bar(page);
    put_list(page, &numbers);
}

// The numbers of a state, and the word before the marks.
pub fn put_state(page: &mut Page<'_>, state: State)
    requires { page.old.at + ROOM ≤ length page.old.bytes.now }
    ensures same_page { SamePage page.old page.new }
    ensures printed { Prints page.old page.new (state_text state) }
    ensures moves { Moves page.old page.new ROOM }
{
    let numbers = [
        state.count as u64,
        state.used as u64,
        state.open as u64,
        state.last,
    ];
    put_bytes(page, b" state");
    put_list(page, &numbers);
    put_bytes(page, b" marks");
}
