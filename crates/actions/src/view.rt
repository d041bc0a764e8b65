ghost use Rattle.std.specs.Prelude.{◌≡◌};
ghost use Rattle.rules.specs.Rules.{entry_at, viewed};
ghost use Rattle.extract.specs.Numbers.{lent_at};
ghost use Rattle.actions.specs.View.{shown, count_of};

use parts::entries::Numbers;
use rules::numbers::ENTRY;
use rules::table::UndoLog;

// The entries since a snapshot: the log's part from the mark's log length to the used end.
#[derive(Clone, Copy)]
pub struct Actions<'a> {
    pub log: &'a [u32],
}

// The part of a log from an entry to an entry, as a view: of the range that `Actions` answers for a token, the entries since its
// snapshot (`Tokens.actions_view`); of a refusal's, nothing.
pub fn actions_between(log: &[u32], from: u32, to: u32) -> Actions<'_>
    ensures { shown result ≡ viewed log.now from to }
{
    Actions {
        log: extract::log::part(log, from, to),
    }
}

impl Actions<'_> {
    // How many entries a view has.
    pub fn len(self) -> usize
        ensures { result ≡ count_of self.entry }
    {
        self.log.len() / ENTRY
    }

    // Entry `i` of a view, by value: past its end, or of no known kind, it is the enum's own case for that.
    pub fn entry(self, i: usize) -> UndoLog
        ensures { result ≡ entry_at (shown self.entry) i }
    {
        extract::log::entry_of(self.log, i)
    }

    // The numbers of entry `i` of a view as they are lent, whatever its kind; 0 past its end.
    pub fn lent_entry(self, i: usize) -> Numbers
        ensures { result ≡ lent_at (shown self.entry) i }
    {
        extract::log::lent_of(self.log, i)
    }
}

// The numbers of entry `i` of a part of a log, read through the view. This and `action_at` stay beside the methods: docs/CONTRACTS.md
// names them, and the edit view_from_the_start is of `action_at`'s clause.
pub fn lent_action_at(log: &[u32], from: u32, to: u32, i: usize) -> Numbers
    ensures { result ≡ lent_at (viewed log.now from to) i }
{
    actions_between(log, from, to).lent_entry(i)
}

// That entry by value.
pub fn action_at(log: &[u32], from: u32, to: u32, i: usize) -> UndoLog
    ensures { result ≡ entry_at (viewed log.now from to) i }
{
    actions_between(log, from, to).entry(i)
}
