ghost use Rattle.std.specs.Prelude.{◌≡◌, false};
ghost use Rattle.rules.specs.Rules.{sizes_of, bad, rows_in, log_in, table_in, table_seen, SameParts};
ghost use Rattle.undo_log.specs.HeadCalls.{head_call};
ghost use Rattle.decisions.specs.Decided.{Carried};

use bad_state::bad::{bad_lent, bad_seen, refuse_bad};
use decide::any::decide;
use decisions::decision::Decision;
use head_calls::calls::{Outline, on_head};
use rules::call::Call;
use rules::table::{Lent, Seen};
use undo_log::tokens::{HeadCall, Settled};

// Carries out any call where nothing is bad, for every state with this outline. That nothing is bad stays a clause here and in
// `writes::long::far`: a type of the parts with that fact would be made for these two, which take it apart at once, first to read the
// parts, as `GoodTable`, and then to write them.
pub fn call_good(lent: &mut Lent<'_>, outline: Outline, call: Call) -> Settled
    requires { bad (sizes_of (rows_in lent.old) (log_in lent.old)) outline.head ≡ false }
    ensures same_parts { SameParts lent.old lent.new }
    ensures value { Carried (table_in lent.old) (table_in lent.new) outline.head outline.last outline.sought call result }
{
    match decide(lent.seen(), outline, call) {
        Decision::Near(todo) => writes::end::end(lent, outline.head.count, todo),
        Decision::Far(walk) => writes::long::far(lent, outline.head, walk),
    }
}

// Any call whatever.
pub fn call(lent: &mut Lent<'_>, outline: Outline, call: Call) -> Settled
    ensures same_parts { SameParts lent.old lent.new }
    ensures value { Carried (table_in lent.old) (table_in lent.new) outline.head outline.last outline.sought call result }
{
    if bad_lent(outline.head, lent) {
        return refuse_bad(outline.head);
    }
    call_good(lent, outline, call)
}

// A call that neither reads nor writes rows and entries: what is lent is only measured.
pub fn rest(seen: Seen<'_>, outline: Outline, asked: HeadCall) -> Settled
    ensures { Carried (table_seen seen.entry) (table_seen seen.entry) outline.head outline.last outline.sought (head_call asked) result }
{
    if bad_seen(outline.head, seen) {
        return refuse_bad(outline.head);
    }
    on_head(outline, asked)
}
