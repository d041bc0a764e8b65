use anyhow::{Context, Result};
use print_live::live::print_table;
use replay_lent::replay::Rebuilt;
use rules::refusal::Refusal;
use rules::table::Seen;
use std::process::ExitCode;
use verb_words::answer::{answered, print_line};

// The verb's two lines: the second is the table, unless the journal isn't valid.
pub fn answer(rt: &impl Print, rebuilt: Rebuilt, seen: Seen<'_>) -> Result<ExitCode> {
    let no = rebuilt.no;
    print_line(rt, no, rebuilt.entry as u64).context("standard output")?;
    if no != Refusal::BadJournal.code() {
        print_table(rebuilt.holding, seen);
    }
    Ok(answered(no))
}
