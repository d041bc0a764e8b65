ghost use Rattle.std.specs.Prelude.{◌≡◌};
ghost use Rattle.arrays.specs.Cut.{done_where};

use commands::command::Lengths;
use rules::call::{Answer, Call};
use rules::table::State;

// What a line is answered with.
#[derive(Clone, Copy)]
pub enum Reply {
    Silent,
    Error,
    Ok,
    Table,
    Answer(Call, Answer),
    Row(u32),
    Live,
    Dump,
}

// What goes from line to line beside the memory: how much of each part is lent, and the state of the table in it.
#[derive(Clone, Copy)]
pub struct Holding {
    pub lengths: Lengths,
    pub state: State,
}

// A reply, with what is held after the line.
#[derive(Clone, Copy)]
pub struct Changed {
    pub holding: Holding,
    pub reply: Reply,
}

// `ok`, or an error where nothing could be done.
pub fn done(fine: bool) -> Reply
    ensures { result ≡ done_where fine }
{
    if fine { Reply::Ok } else { Reply::Error }
}
