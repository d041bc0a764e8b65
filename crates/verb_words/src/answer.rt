// What a verb ends with: its first line, and its status. NO is a number here: it is what every verb prints (docs/METER.md).
ghost use Rattle.std.specs.Prelude.{◌≡◌, ◌≢◌};
ghost use Rattle.std.specs.Process.{exit_status};

use anyhow::{Context, Error, Result};
use std::io;
use std::process::ExitCode;

// `NO NUMBER` and a line feed.
pub fn print_line(rt: &impl Print, no: u32, number: u64) -> io::Result<()> {
    println!(rt; "{no} {number}")
}

// "status 0 where NO is 0, with 1 where it is a refusal"
pub fn answered(no: u32) -> ExitCode
    ensures done { no ≡ 0 → exit_status result ≡ 0 }
    ensures refused { no ≢ 0 → exit_status result ≡ 1 }
{
    ExitCode::from(u8::from(no != 0))
}

// The first line of a verb that prints no other, and its status.
pub fn end_with(rt: &impl Print, no: u32, number: u64) -> Result<ExitCode> {
    print_line(rt, no, number).context("standard output")?;
    Ok(answered(no))
}

// "with 2 .. where the words are no verb's, a file can't be read or written, or is larger than the program takes". Who calls this has
// said on standard error which it is.
pub fn gave_up() -> ExitCode
    ensures { exit_status result ≡ 2 }
{
    ExitCode::from(2)
}

// Says on standard error why the verb gave up. Where even that can't be written, the status alone tells it.
pub fn complain(rt: &impl Eprint, why: &Error) {
    let _ = rt.eprintln(format_args!("{why:#}"));
}

// What the program ends with.
pub fn ended(rt: &impl Eprint, verb: Result<ExitCode>) -> ExitCode {
    match verb {
        Ok(status) => status,
        Err(why) => {
            complain(rt, &why);
            gave_up()
        }
    }
}
