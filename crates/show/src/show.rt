ghost use Rattle.std.specs.Prelude.{◌≡◌, [], ◌∷◌, ◌+◌, min};
ghost use Rattle.rules.specs.Rules.{rows_seen};
ghost use Rattle.digits.specs.Page.{SamePage};
ghost use Rattle.print.specs.Texts.{kind_text, mark_text, row_text};
ghost use Rattle.show.specs.Pieces.{Says};
ghost use Rattle.show.specs.Shown.{each, cell_at, both, row_piece, row_pieces, entry_pieces, mark_pieces};

use crate::buffer::{Output, room, word};
use parts::amounts::amount_of;
use print::print::{Cells, put_kind, put_mark, put_row};
use rules::numbers::{CROWN, ENTRY};
use rules::table::{Mark, Seen, State};

// What a part has at a place, if that is lent.
fn cell(part: &[u32], at: usize) -> Option<u64>
    ensures { result ≡ cell_at part.now at }
{
    let &number = part.get(at)?;
    Some(number as u64)
}

// The amount whose low word the log has at a place, and its high word after it, if both are lent.
fn logged_amount(log: &[u32], at: usize) -> Option<u64>
    ensures { result ≡ both (cell_at log.now at) (cell_at log.now (at + 1)) }
{
    let &low = log.get(at)?;
    let &high = log.get(at + 1)?;
    Some(amount_of(low, high))
}

// A row's four numbers.
pub fn row_cells(out: &mut Output<'_>, seen: Seen<'_>, i: u32)
    ensures same_page { SamePage out.old.page out.new.page }
    ensures said { Says out.old.page out.new.page (row_piece (rows_seen seen.entry) i ∷ []) }
{
    let place = i as usize;
    let base = place * CROWN;
    let row = Cells {
        parent: cell(seen.parents, place),
        rank: cell(seen.crowns, base),
        owner: cell(seen.crowns, base + 1),
        amount: seen.amounts.get(place).copied(),
    };
    room(out);
    put_row(&mut out.page, row);
}

// The first `n` rows, a bar before each.
pub fn rows(out: &mut Output<'_>, seen: Seen<'_>, n: u32)
    ensures same_page { SamePage out.old.page out.new.page }
    ensures said { Says out.old.page out.new.page (each n (row_pieces (rows_seen seen.entry))) }
{
    for i in 0..n {
        word(out, b" |");
        row_cells(out, seen, i);
    }
}

// An entry's six numbers, after a bar.
pub fn put_entry(out: &mut Output<'_>, kind: Option<u64>, key: Option<u64>, row: Cells)
    ensures same_page { SamePage out.old.page out.new.page }
    ensures said { Says out.old.page out.new.page (kind_text kind key ∷ row_text row.parent row.rank row.owner row.amount ∷ []) }
{
    room(out);
    put_kind(&mut out.page, kind, key);
    room(out);
    put_row(&mut out.page, row);
}

// Entry `i` of the log.
fn entry_cells(out: &mut Output<'_>, log: &[u32], i: u32)
    ensures same_page { SamePage out.old.page out.new.page }
    ensures said { Says out.old.page out.new.page (entry_pieces log.now i) }
{
    let base = i as usize * ENTRY;
    let row = Cells {
        parent: cell(log, base + 2),
        rank: cell(log, base + 3),
        owner: cell(log, base + 4),
        amount: logged_amount(log, base + 5),
    };
    put_entry(out, cell(log, base), cell(log, base + 1), row);
}

// The first `n` entries, a bar before each.
pub fn entries(out: &mut Output<'_>, log: &[u32], n: u32)
    ensures same_page { SamePage out.old.page out.new.page }
    ensures said { Says out.old.page out.new.page (each n (entry_pieces log.now)) }
{
    for i in 0..n {
        entry_cells(out, log, i);
    }
}

// One mark, after a bar.
fn one_mark(out: &mut Output<'_>, mark: Mark)
    ensures same_page { SamePage out.old.page out.new.page }
    ensures said { Says out.old.page out.new.page (mark_text mark ∷ []) }
{
    room(out);
    put_mark(&mut out.page, mark);
}

// The first `n` marks, and no more than there are.
pub fn marks(out: &mut Output<'_>, state: State, n: u32)
    ensures same_page { SamePage out.old.page out.new.page }
    ensures said { Says out.old.page out.new.page (each (min n 32) (mark_pieces state)) }
{
    for &mark in &state.marks[..n.min(32) as usize] {
        one_mark(out, mark);
    }
}
