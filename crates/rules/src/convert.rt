// What is made of what: an owner of its lent number and back, the value of a row, the refusal of a merge that failed, the head of a state, the
// lent parts to be read.
ghost use Rattle.std.specs.Prelude.{◌≡◌};
ghost use Rattle.rules.specs.Rules.{owner_of, number_of, value_of, refused_merge, head_of};

use crate::refusal::Refusal;
use crate::table::{Head, Lent, MergeError, Owner, Row, Seen, State, Value};

// "Owner 0, in lent numbers or in a call, means none."
impl From<u32> for Owner {
    ghost from_gives = { λ number owner. owner ≡ owner_of number };

    fn from(number: u32) -> Owner {
        if number == 0 {
            return Owner::Nobody;
        }
        Owner::Tenant(number)
    }
}

impl From<Owner> for u32 {
    ghost from_gives = { λ owner number. number ≡ number_of owner };

    fn from(owner: Owner) -> u32 {
        match owner {
            Owner::Nobody => 0,
            Owner::Tenant(number) => number,
        }
    }
}

impl From<Row> for Value {
    ghost from_gives = { λ row value. value ≡ value_of row };

    fn from(row: Row) -> Value {
        Value {
            owner: row.owner,
            amount: row.amount,
        }
    }
}

impl From<MergeError> for Refusal {
    ghost from_gives = { λ why refusal. refusal ≡ refused_merge why };

    fn from(why: MergeError) -> Refusal {
        match why {
            MergeError::Clash => Refusal::OwnerClash,
            MergeError::TooMuch => Refusal::TooMuch,
        }
    }
}

impl State {
    // The state without its serials and marks.
    pub fn head(&self) -> Head
        ensures { result ≡ head_of self.now }
    {
        Head {
            count: self.count,
            used: self.used,
            open: self.open,
        }
    }
}

impl Lent<'_> {
    // The same parts, to be read.
    pub fn seen(&self) -> Seen<'_>
        ensures parents { result.parents.now ≡ self.now.parents.now }
        ensures crowns { result.crowns.now ≡ self.now.crowns.now }
        ensures amounts { result.amounts.now ≡ self.now.amounts.now }
        ensures log { result.log.now ≡ self.now.log.now }
    {
        Seen {
            parents: self.parents,
            crowns: self.crowns,
            amounts: self.amounts,
            log: self.log,
        }
    }
}
