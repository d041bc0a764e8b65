#![tactic(auto)]

ghost use Rattle.std.specs.Prelude.{◌≡◌, ◌+◌};
ghost use Rattle.rules.specs.Rules.{summed, merge};

use rules::table::{MergeError, Owner, Value};

// The merge of two values: ena's `UnifyValue::unify_values`. Owners are merged before the sum is judged.
#[tactic(auto, unfolding(rules::specs::Merge::merge))]
pub fn unify_values(a: Value, b: Value) -> Result<Value, MergeError>
    ensures { result ≡ merge a b }
{
    let owner = match (a.owner, b.owner) {
        (Owner::Nobody, owner) | (owner, Owner::Nobody) => owner,
        (Owner::Tenant(m), Owner::Tenant(n)) if m == n => a.owner,
        (Owner::Tenant(_), Owner::Tenant(_)) => return Err(MergeError::Clash),
    };
    summed(owner, a.amount, b.amount)
}

// The sum on an owner, or `TooMuch` where it does not fit.
fn summed(owner: Owner, a: u64, b: u64) -> Result<Value, MergeError>
    ensures { result ≡ summed owner (a + b) }
{
    let amount = a.checked_add(b).ok_or(MergeError::TooMuch)?;
    Ok(Value { owner, amount })
}
