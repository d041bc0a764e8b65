ghost use Rattle.std.specs.Prelude.{◌≡◌};
ghost use Rattle.lines.specs.Lines.{cut_off, line_command};

use crate::gather::Kept;
use commands::command::Command;
use parser::parse::parse;

// What a line is of which only the beginning was kept: a comment is one however long it is, and nothing else is a command.
fn cut_off(line: &[u8]) -> Command
    ensures { result ≡ cut_off line.now }
{
    if line.starts_with(b"#") {
        return Command::Blank;
    }
    Command::Error
}

// The command of the bytes of a buffer that are kept.
pub fn command_of(line: &[u8], kept: Kept) -> Command
    ensures { result ≡ line_command line.now kept.n kept.overlong }
{
    if kept.overlong {
        return cut_off(line);
    }
    let Some(whole) = line.get(..kept.n) else {
        return Command::Error;
    };
    parse(whole)
}
