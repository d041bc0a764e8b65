use crate::table::{Owner, State};

// A call of the table. An owner in a call is a number, and 0 means none.
#[derive(Clone, Copy)]
pub enum Call {
    New(u32, u64),
    Len,
    Find(u32),
    Unioned(u32, u32),
    Join(u32, u32),
    Post(u32, u32, u64),
    Probe(u32),
    ProbeKey(u32),
    TryProbe(u32),
    Snapshot,
    Rollback(u64),
    Commit(u64),
    Keys(u64),
    Actions(u64),
    Changes(u64),
}

// What every call answers. What a call has nothing to say of is as in a refusal. All of it is numbers that C reads, `yes` too. The number of
// refusal stands beside the rest, and is no `Err`: OWNER_CLASH and TOO_MUCH answer steps, and keep what their walks wrote, as DONE does.
#[derive(Clone, Copy)]
pub struct Answer {
    pub no: u32,
    pub key: u32,
    pub token: u64,
    pub owner: Owner,
    pub amount: u64,
    pub steps: u32,
    pub yes: bool,
    pub from: u32,
    pub to: u32,
}

// An answer, and the state to lend to the next call.
#[derive(Clone, Copy)]
pub struct Answered {
    pub answer: Answer,
    pub state: State,
}
