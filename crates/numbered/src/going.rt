ghost use Rattle.std.specs.Prelude.{◌≡◌};
ghost use Rattle.rules.specs.Rules.{rows_in, log_in, sizes_of, bad};

use layout::state::LentState;
use rules::table::{Head, Lent};

// A lent table while calls are carried out: the head is at hand, and is written at the end. Whether the table is bad is known from the
// call before, which is quicker than to find it out. The public functions above take `state` and `lent` as two and make a `Going` of them:
// of a struct that holds both by value, C's functions don't learn that what is left in it is left in their slices. What they do with a
// `Going` is a function of its own each: where a loop or a later write stands beside the making, the checker loses whose state it is.
#[derive(Drop)]
pub struct Going<'a, 'b, 'c, 'd> {
    pub state: &'a mut LentState<'b>,
    pub lent: &'c mut Lent<'d>,
    pub head: Head,
    pub is_bad: bool,
    ghost known: { is_bad ≡ bad (sizes_of (rows_in lent.now) (log_in lent.now)) head },
}
