ghost use Rattle.std.specs.Prelude.{◌≡◌, true};
ghost use Rattle.coding.specs.Coding.{is_asked, asked_at, call_at};

use crate::coding::{CALL, call_at};
use rules::call::Call;

// Four numbers of a list that ask for a call: a list is tested whole before its first call, and from there on the fact is in the type.
#[derive(Clone, Copy)]
pub struct AskedCall<'a> {
    pub numbers: &'a [u64; CALL],
    ghost asked: { is_asked (asked_at numbers.now 0) ≡ true },
}

impl AskedCall<'_> {
    // The call that they ask for.
    pub fn call(self) -> Call
        ensures { result ≡ call_at self.entry.numbers.now 0 }
    {
        let numbers = self.numbers;
        call_at(numbers, 0)
    }
}
