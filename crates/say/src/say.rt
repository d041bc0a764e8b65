ghost use Rattle.rules.specs.Rules.{table_seen};
ghost use Rattle.digits.specs.Page.{SamePage};
ghost use Rattle.show.specs.Pieces.{Says};
ghost use Rattle.say.specs.Reply.{reply_pieces, said_pieces};

use arrays::lengths::at_most;
use arrays::reply::{Holding, Reply};
use commands::command::Lengths;
use extents::head::{all_there_is, in_use};
use replies::written::{answered, error, row, shown};
use rules::table::{Head, Seen, State};
use show::buffer::{Output, word};

// Prints a reply over what is lent, with a line feed.
pub fn say(out: &mut Output<'_>, holding: Holding, seen: Seen<'_>, reply: Reply, line: u64)
    ensures same_page { SamePage out.old.page out.new.page }
    ensures said { Says out.old.page out.new.page (said_pieces holding.lengths (table_seen seen.entry holding.state) reply line) }
{
    let lengths = holding.lengths;
    let cut = Lengths {
        parents: at_most(lengths.parents, seen.parents.len()),
        crowns: at_most(lengths.crowns, seen.crowns.len()),
        amounts: at_most(lengths.amounts, seen.amounts.len()),
        log: at_most(lengths.log, seen.log.len()),
    };
    let fronts = Seen {
        parents: &seen.parents[..cut.parents as usize],
        crowns: &seen.crowns[..cut.crowns as usize],
        amounts: &seen.amounts[..cut.amounts as usize],
        log: &seen.log[..cut.log as usize],
    };
    put_reply(out, holding.state, fronts, all_there_is(cut), reply, line);
}

#[tactic(auto, using(show::proofs::PieceLaws::nothing), unfolding(crate::specs::Reply::reply_pieces))]
fn put_reply(out: &mut Output<'_>, state: State, seen: Seen<'_>, all: Head, reply: Reply, line: u64)
    ensures same_page { SamePage out.old.page out.new.page }
    ensures said { Says out.old.page out.new.page (reply_pieces (table_seen seen.entry state) all reply line) }
{
    match reply {
        Reply::Silent => {}
        Reply::Error => error(out, line),
        Reply::Ok => word(out, b"ok\n"),
        Reply::Table => word(out, b"table\n"),
        Reply::Answer(call, answer) => answered(out, seen.log, call, answer),
        Reply::Row(key) => row(out, seen, all, key),
        Reply::Live => shown(out, b"live rows", state, seen, in_use(state, all)),
        Reply::Dump => shown(out, b"dump rows", state, seen, all),
    }
}
