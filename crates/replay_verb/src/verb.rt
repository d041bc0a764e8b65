use anyhow::{Result, bail};
use replay_answer::answer::answer;
use replay_lent::replay::replay_lent;
use rules::table::Seen;
use std::process::ExitCode;
use std::rt::Files;
use storage::memory::Memory;
use verb_journal::named::journal_named;
use verb_words::verbs::replay_words;

// The journal that the words name, replayed and printed.
pub fn replay_verb(
    rt: &(impl Files + Print),
    words: &[String],
    memory: &mut Memory,
) -> Result<ExitCode> {
    let Some(asked) = replay_words(words) else {
        bail!("usage: ./meter replay JOURNAL [rows N] [log N]");
    };
    let used = journal_named(rt, asked.journal, &mut memory.journal)?.len();
    let Some(rebuilt) = replay_lent(asked.rows, asked.log, memory, used) else {
        bail!("log: larger than the program takes");
    };
    let seen = Seen {
        parents: &memory.parents,
        crowns: &memory.crowns,
        amounts: &memory.amounts,
        log: &memory.log,
    };
    answer(rt, rebuilt, seen)
}
