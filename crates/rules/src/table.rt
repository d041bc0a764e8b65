// Whom a group is charged to: an enum in the row, which is document 01's own form, and so no `Option`.
#[derive(Clone, Copy, PartialEq, Eq)]
pub enum Owner {
    Nobody,
    Tenant(u32),
}

// What a root carries: ena's `UnifyValue`.
#[derive(Clone, Copy)]
pub struct Value {
    pub owner: Owner,
    pub amount: u64,
}

// Why two values do not merge: different named owners, or a sum that does not fit.
#[derive(Clone, Copy, PartialEq, Eq)]
pub enum MergeError {
    Clash,
    TooMuch,
}

// A row: ena's `VarValue`. Where the parent is the row itself it is a root.
#[derive(Clone, Copy)]
pub struct Row {
    pub parent: u32,
    pub rank: u32,
    pub owner: Owner,
    pub amount: u64,
}

// An entry of the undo log: a new key, or a changed row with its key and what it was.
// `Unknown` is what an entry of no known kind reads as; it is never logged. It is no `None` beside the enum, since `entry_at` and the view
// of `Tokens.actions_view` have an entry at each place.
#[derive(Clone, Copy)]
pub enum UndoLog {
    NewElem(u32),
    SetElem(u32, Row),
    Unknown,
}

// What an open snapshot keeps.
#[derive(Clone, Copy)]
pub struct Mark {
    pub serial: u64,
    pub log_len: u32,
    pub keys: u32,
}

// A state without its serials and marks: how many keys and entries there are, and how many snapshots are open.
#[derive(Clone, Copy)]
pub struct Head {
    pub count: u32,
    pub used: u32,
    pub open: u32,
}

// All of a table that is not lent. `marks[0]` is the outermost snapshot's; the 32 are an array, by document 01's own form.
#[derive(Clone, Copy)]
pub struct State {
    pub count: u32,
    pub used: u32,
    pub open: u32,
    pub last: u64,
    pub marks: [Mark; 32],
}

// The four lent parts, as the host lends them. A row has one number in `parents`, two in `crowns` (rank and owner) and one in `amounts`; an entry of the undo
// log has seven in `log`.
#[derive(Drop)]
pub struct Lent<'a> {
    pub parents: &'a mut [u32],
    pub crowns: &'a mut [u32],
    pub amounts: &'a mut [u64],
    pub log: &'a mut [u32],
}

// The same, to be read alone: what of the parts is shown or looked at.
#[derive(Clone, Copy)]
pub struct Seen<'a> {
    pub parents: &'a [u32],
    pub crowns: &'a [u32],
    pub amounts: &'a [u64],
    pub log: &'a [u32],
}
