// FILES.md: "Then it reads CALLS: the fifteen calls of CALLS.md, .. `row`, `live`, and `flush` .. other lines are `error LINE`."
use arrays::reply::Reply;
use commands::command::Command;
use lines::gather::Kept;
use lines::line::command_of;
use rules::call::Call;
use words::words::Words;

// A call, a segment, or no more than a reply.
#[derive(Clone, Copy)]
pub enum Asked {
    Call(Call),
    Flush,
    Say(Reply),
}

// Whether a line has the one word `flush`.
fn is_flush(line: &[u8]) -> bool {
    let mut words = Words(line);
    words.next() == Some(b"flush".as_slice()) && words.next().is_none()
}

// What a command asks for, of those that a recorded list may have.
fn of_command(command: Command) -> Asked {
    match command {
        Command::Blank => Asked::Say(Reply::Silent),
        Command::Call(call) => Asked::Call(call),
        Command::Row(key) => Asked::Say(Reply::Row(key)),
        Command::Live => Asked::Say(Reply::Live),
        _ => Asked::Say(Reply::Error),
    }
}

// What the bytes of a buffer that are kept ask for.
pub fn line_asked(line: &[u8], kept: Kept) -> Asked {
    if !kept.overlong && line.get(..kept.n).is_some_and(is_flush) {
        return Asked::Flush;
    }
    of_command(command_of(line, kept))
}
