// The commands, and which one a form of the table of specs/Forms.antt makes of its numbers: that table is CALLS.md's.
ghost use Rattle.std.specs.Prelude.{◌≡◌, ◌<◌};
ghost use Rattle.commands.specs.Forms.{makes_of};

use rules::call::Call;
use rules::table::Mark;

// How wide a number of a line may be: a key, an owner, a rank, a kind, a length; an amount or a serial; the place of a mark.
#[derive(Clone, Copy)]
pub enum Width {
    Short,
    Long,
    Few,
}

// A row's four lent numbers as they are written in a line.
#[derive(Clone, Copy)]
pub struct RowNumbers {
    pub parent: u32,
    pub rank: u32,
    pub owner: u32,
    pub amount: u64,
}

// The lengths of the four lent parts, in numbers.
#[derive(Clone, Copy, Default)]
pub struct Lengths {
    pub parents: u32,
    pub crowns: u32,
    pub amounts: u32,
    pub log: u32,
}

// What a line asks for. `Blank` prints nothing. `Error` is no command, and a case: "prints `error LINE`" is an answer as others are, and
// `changed` of damage/specs, which may not change, gives it by this case.
#[derive(Clone, Copy)]
pub enum Command {
    Blank,
    Error,
    Call(Call),
    Table(u32, u32),
    Row(u32),
    Live,
    Dump,
    SetRow(u32, RowNumbers),
    SetEntry(u32, u32, u32, RowNumbers),
    SetState(u32, u32, u32, u64),
    SetMark(u32, Mark),
    Lend(Lengths),
}

// The first commands are calls.
const CALLS: usize = 15;

// The call of a form and its numbers.
#[tactic(auto, unfolding(crate::specs::Forms::forms))]
fn make_call(form: usize, s: [u32; 7], n: [u64; 7]) -> Call
    requires { form < 15 }
    ensures { Command.Call result ≡ makes_of form s n }
{
    let a = s[0];
    let b = s[1];
    let token = n[0];
    match form {
        0 => Call::New(a, n[1]),
        1 => Call::Len,
        2 => Call::Find(a),
        3 => Call::Unioned(a, b),
        4 => Call::Join(a, b),
        5 => Call::Post(a, b, n[2]),
        6 => Call::Probe(a),
        7 => Call::ProbeKey(a),
        8 => Call::TryProbe(a),
        9 => Call::Snapshot,
        10 => Call::Rollback(token),
        11 => Call::Commit(token),
        12 => Call::Keys(token),
        13 => Call::Actions(token),
        _ => Call::Changes(token),
    }
}

// The command of a form and its numbers. A form is its place among the names in CALLS.md's order, where a name is looked up: an enum of
// the forms would need a table more, from places to them.
#[tactic(auto, unfolding(crate::specs::Forms::forms))]
pub fn make(form: usize, s: [u32; 7], n: [u64; 7]) -> Command
    ensures { result ≡ makes_of form s n }
{
    if form < CALLS {
        return Command::Call(make_call(form, s, n));
    }
    let a = s[0];
    let b = s[1];
    let c = s[2];
    let d = s[3];
    match form {
        15 => Command::Table(a, b),
        16 => Command::Row(a),
        17 => Command::Live,
        18 => Command::Dump,
        19 => Command::SetRow(
            a,
            RowNumbers {
                parent: b,
                rank: c,
                owner: d,
                amount: n[4],
            },
        ),
        20 => Command::SetEntry(
            a,
            b,
            c,
            RowNumbers {
                parent: d,
                rank: s[4],
                owner: s[5],
                amount: n[6],
            },
        ),
        21 => Command::SetState(a, b, c, n[3]),
        22 => Command::SetMark(
            a,
            Mark {
                serial: n[1],
                log_len: c,
                keys: d,
            },
        ),
        23 => Command::Lend(Lengths {
            parents: a,
            crowns: b,
            amounts: c,
            log: d,
        }),
        _ => Command::Error,
    }
}
