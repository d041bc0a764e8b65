// Rows are written here, and logged first where a snapshot is open.
//
// That a row lies in what is lent, and that an entry more does (`InRows`, `Loggable`), are clauses and no fact of the type: the one is of an
// index too, and the other need not hold after an entry, which may be the last that fits.
ghost use Rattle.std.specs.Prelude.{◌≡◌};
ghost use Rattle.rules.specs.declared.table.UndoLog.TheVariants.{SetElem};
ghost use Rattle.rules.specs.Rules.{row_at, logged, put, push, redirect, crown, reversed, rows_in, log_in, SameParts};
ghost use Rattle.parts.specs.Bounds.{InRows, Loggable, Undoing};
ghost use Rattle.snapshot_vec.specs.Memory.{memory_by, SameVec};

use rules::table::{Lent, Row, UndoLog, Value};

// The lent parts, how many snapshots are open, and how much of the log is used: ena's `SnapshotVec`.
#[derive(Drop)]
pub struct SnapshotVec<'a, 'b> {
    pub lent: &'b mut Lent<'a>,
    pub opened: u32,
    pub used: u32,
}

impl SnapshotVec<'_, '_> {
    // Logs an entry, if a snapshot is open.
    pub fn log_entry(&mut self, entry: UndoLog)
        requires { Loggable self.old.opened self.old.used (log_in self.old.lent.now) }
        ensures same_vec { SameVec self.old self.new }
        ensures value { memory_by self.new ≡ logged entry (memory_by self.old) }
    {
        if self.opened == 0 {
            return;
        }
        let lent = &mut *self.lent;
        parts::entries::put_entry(lent.log, self.used, entry);
        self.used += 1;
    }

    // Logs row `i` as it stands, if a snapshot is open.
    pub fn log_row(&mut self, i: u32)
        requires in_rows { InRows i (rows_in self.old.lent.now) }
        requires loggable { Loggable self.old.opened self.old.used (log_in self.old.lent.now) }
        ensures same_vec { SameVec self.old self.new }
        ensures value { memory_by self.new ≡ logged (SetElem i (row_at (rows_in self.old.lent.now) i)) (memory_by self.old) }
    {
        let old = rows::rows::row_at(self.lent.seen(), i);
        self.log_entry(UndoLog::SetElem(i, old));
    }

    // Sends row `key` to `root`.
    pub fn redirect(&mut self, key: u32, root: u32)
        requires in_rows { InRows key (rows_in self.old.lent.now) }
        requires loggable { Loggable self.old.opened self.old.used (log_in self.old.lent.now) }
        ensures same_vec { SameVec self.old self.new }
        ensures value { memory_by self.new ≡ put (memory_by self.old) (redirect key root) }
    {
        self.log_row(key);
        self.lent.parents[key as usize] = root;
    }

    // Gives root `key` a rank and a value.
    pub fn crown(&mut self, key: u32, rank: u32, value: Value)
        requires in_rows { InRows key (rows_in self.old.lent.now) }
        requires loggable { Loggable self.old.opened self.old.used (log_in self.old.lent.now) }
        ensures same_vec { SameVec self.old self.new }
        ensures value { memory_by self.new ≡ put (memory_by self.old) (crown key rank value) }
    {
        self.log_row(key);
        let lent = &mut *self.lent;
        rows::rows::put_crown(lent.crowns, key, rank, value.owner);
        lent.amounts[key as usize] = value.amount;
    }

    // Makes row `key` of a new key.
    pub fn push(&mut self, key: u32, row: Row)
        requires in_rows { InRows key (rows_in self.old.lent.now) }
        requires loggable { Loggable self.old.opened self.old.used (log_in self.old.lent.now) }
        ensures same_vec { SameVec self.old self.new }
        ensures value { memory_by self.new ≡ push (memory_by self.old) key row }
    {
        self.log_entry(UndoLog::NewElem(key));
        rows::rows::put_row(self.lent, key, row);
    }
}

// Undoes an entry. A new key's row keeps what it holds.
pub fn reverse(lent: &mut Lent<'_>, entry: UndoLog)
    requires { Undoing entry (rows_in lent.old) }
    ensures same_parts { SameParts lent.old lent.new }
    ensures rows { rows_in lent.new ≡ reversed (rows_in lent.old) entry }
    ensures log { log_in lent.new ≡ log_in lent.old }
{
    if let UndoLog::SetElem(key, old) = entry {
        rows::rows::put_row(lent, key, old);
    }
}
