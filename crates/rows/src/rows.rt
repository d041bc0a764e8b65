ghost use Rattle.std.specs.Prelude.{◌≡◌, ◌+◌, ◌*◌, ◌≤◌, length};
ghost use Rattle.rules.specs.Rules.{CROWN, row_at, put_crown, put_row, rows_in, rows_seen, log_in, SameParts};
ghost use Rattle.parts.specs.Bounds.{InRows};

use rules::numbers::CROWN;
use rules::table::{Lent, Owner, Row, Seen};

// Row `i` by value.
pub fn row_at(seen: Seen<'_>, i: u32) -> Row
    requires { InRows i (rows_seen seen) }
    ensures { result ≡ row_at (rows_seen seen.entry) i }
{
    let at = i as usize;
    let base = at * CROWN;
    Row {
        parent: seen.parents[at],
        rank: seen.crowns[base],
        owner: Owner::from(seen.crowns[base + 1]),
        amount: seen.amounts[at],
    }
}

// Writes the rank and the owner of row `i`.
pub fn put_crown(crowns: &mut [u32], i: u32, rank: u32, owner: Owner)
    requires { i * CROWN + CROWN ≤ length crowns.old }
    ensures { crowns.new ≡ put_crown crowns.old i rank owner }
{
    let base = i as usize * CROWN;
    crowns[base] = rank;
    crowns[base + 1] = u32::from(owner);
}

// Writes all of row `i`.
pub fn put_row(lent: &mut Lent<'_>, i: u32, row: Row)
    requires { InRows i (rows_in lent.old) }
    ensures same_parts { SameParts lent.old lent.new }
    ensures rows { rows_in lent.new ≡ put_row (rows_in lent.old) i row }
    ensures log { log_in lent.new ≡ log_in lent.old }
{
    let at = i as usize;
    lent.parents[at] = row.parent;
    put_crown(lent.crowns, i, row.rank, row.owner);
    lent.amounts[at] = row.amount;
}
