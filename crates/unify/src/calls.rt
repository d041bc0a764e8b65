// The table's calls in document 01's form: the state handed in and back by value, under ena's names.
ghost use Rattle.std.specs.Prelude.{◌≡◌};
ghost use Rattle.rules.specs.declared.call.Call.TheVariants.{New, Len, Find, Unioned, Join, Post, Probe, ProbeKey, TryProbe, Snapshot, Rollback, Commit, Keys, Actions, Changes};
ghost use Rattle.rules.specs.Rules.{table_in, table_seen, outcome_of, step, SameParts};

use rules::call::{Answered, Call};
use rules::table::{Lent, Seen, State};
use table::by_value::{call, rest};
use undo_log::tokens::HeadCall;

// A new key, a root with the given owner (0 for none) and amount.
pub fn new_key(state: State, lent: &mut Lent<'_>, owner: u32, amount: u64) -> Answered
    ensures same_parts { SameParts lent.old lent.new }
    ensures value { outcome_of result (table_in lent.new) ≡ step (table_in lent.old state) (New owner amount) }
{
    call(state, lent, Call::New(owner, amount))
}

// The root of a key.
pub fn find(state: State, lent: &mut Lent<'_>, key: u32) -> Answered
    ensures same_parts { SameParts lent.old lent.new }
    ensures value { outcome_of result (table_in lent.new) ≡ step (table_in lent.old state) (Find key) }
{
    call(state, lent, Call::Find(key))
}

// Whether two keys have the same root.
pub fn unioned(state: State, lent: &mut Lent<'_>, a: u32, b: u32) -> Answered
    ensures same_parts { SameParts lent.old lent.new }
    ensures value { outcome_of result (table_in lent.new) ≡ step (table_in lent.old state) (Unioned a b) }
{
    call(state, lent, Call::Unioned(a, b))
}

// Makes the groups of two keys one: document 01's join.
pub fn unify_var_var(state: State, lent: &mut Lent<'_>, a: u32, b: u32) -> Answered
    ensures same_parts { SameParts lent.old lent.new }
    ensures value { outcome_of result (table_in lent.new) ≡ step (table_in lent.old state) (Join a b) }
{
    call(state, lent, Call::Join(a, b))
}

// Puts an owner (0 for none) and an amount on a key's group: document 01's post.
pub fn unify_var_value(
    state: State,
    lent: &mut Lent<'_>,
    key: u32,
    owner: u32,
    amount: u64,
) -> Answered
    ensures same_parts { SameParts lent.old lent.new }
    ensures value { outcome_of result (table_in lent.new) ≡ step (table_in lent.old state) (Post key owner amount) }
{
    call(state, lent, Call::Post(key, owner, amount))
}

// The value of a key's group.
pub fn probe_value(state: State, lent: &mut Lent<'_>, key: u32) -> Answered
    ensures same_parts { SameParts lent.old lent.new }
    ensures value { outcome_of result (table_in lent.new) ≡ step (table_in lent.old state) (Probe key) }
{
    call(state, lent, Call::Probe(key))
}

// The root of a key and the value of its group.
pub fn inlined_probe_key_value(state: State, lent: &mut Lent<'_>, key: u32) -> Answered
    ensures same_parts { SameParts lent.old lent.new }
    ensures value { outcome_of result (table_in lent.new) ≡ step (table_in lent.old state) (ProbeKey key) }
{
    call(state, lent, Call::ProbeKey(key))
}

// The value of a key that is a root, without a walk.
pub fn try_probe_value(state: State, lent: &mut Lent<'_>, key: u32) -> Answered
    ensures same_parts { SameParts lent.old lent.new }
    ensures value { outcome_of result (table_in lent.new) ≡ step (table_in lent.old state) (TryProbe key) }
{
    call(state, lent, Call::TryProbe(key))
}

// Takes back all that was done since the innermost snapshot, and closes it.
pub fn rollback_to(state: State, lent: &mut Lent<'_>, token: u64) -> Answered
    ensures same_parts { SameParts lent.old lent.new }
    ensures value { outcome_of result (table_in lent.new) ≡ step (table_in lent.old state) (Rollback token) }
{
    call(state, lent, Call::Rollback(token))
}

// How many keys there are.
pub fn len(state: State, seen: Seen<'_>) -> Answered
    ensures { outcome_of result (table_seen seen.entry) ≡ step (table_seen seen.entry state) Len }
{
    rest(state, seen, HeadCall::Len)
}

// Opens a snapshot.
pub fn snapshot(state: State, seen: Seen<'_>) -> Answered
    ensures { outcome_of result (table_seen seen.entry) ≡ step (table_seen seen.entry state) Snapshot }
{
    rest(state, seen, HeadCall::Snapshot)
}

// Closes the innermost snapshot and keeps what was done in it.
pub fn commit(state: State, seen: Seen<'_>, token: u64) -> Answered
    ensures { outcome_of result (table_seen seen.entry) ≡ step (table_seen seen.entry state) (Commit token) }
{
    rest(state, seen, HeadCall::Commit(token))
}

// The keys made since a snapshot.
pub fn vars_since_snapshot(state: State, seen: Seen<'_>, token: u64) -> Answered
    ensures { outcome_of result (table_seen seen.entry) ≡ step (table_seen seen.entry state) (Keys token) }
{
    rest(state, seen, HeadCall::Keys(token))
}

// Where in the log the entries since a snapshot lie.
pub fn actions_since_snapshot(state: State, seen: Seen<'_>, token: u64) -> Answered
    ensures { outcome_of result (table_seen seen.entry) ≡ step (table_seen seen.entry state) (Actions token) }
{
    rest(state, seen, HeadCall::Actions(token))
}

// Whether anything was logged since a snapshot.
pub fn has_changes(state: State, seen: Seen<'_>, token: u64) -> Answered
    ensures { outcome_of result (table_seen seen.entry) ≡ step (table_seen seen.entry state) (Changes token) }
{
    rest(state, seen, HeadCall::Changes(token))
}
