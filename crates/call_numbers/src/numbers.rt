ghost use Rattle.call_numbers.specs.Told.{Told};

use rules::call::Call;

// The call's code, then a, b and c; a number that it does not have is 0. A function and no `From`: neither `Call` nor an array is of
// this crate, and the codes are C's.
pub fn numbers_of(call: Call) -> [u64; 4]
    ensures { Told result call }
{
    match call {
        Call::New(owner, amount) => [0, owner as u64, amount, 0],
        Call::Len => [1, 0, 0, 0],
        Call::Find(key) => [2, key as u64, 0, 0],
        Call::Unioned(a, b) => [3, a as u64, b as u64, 0],
        Call::Join(a, b) => [4, a as u64, b as u64, 0],
        Call::Post(key, owner, amount) => [5, key as u64, owner as u64, amount],
        Call::Probe(key) => [6, key as u64, 0, 0],
        Call::ProbeKey(key) => [7, key as u64, 0, 0],
        Call::TryProbe(key) => [8, key as u64, 0, 0],
        Call::Snapshot => [9, 0, 0, 0],
        Call::Rollback(token) => [10, token, 0, 0],
        Call::Commit(token) => [11, token, 0, 0],
        Call::Keys(token) => [12, token, 0, 0],
        Call::Actions(token) => [13, token, 0, 0],
        Call::Changes(token) => [14, token, 0, 0],
    }
}
