ghost use Rattle.std.specs.Prelude.{◌≡◌, ℕ};
ghost use Rattle.coding.specs.Coding.{unlisted, call_list};
ghost use Rattle.admit.specs.Admit.{admission, state_admission, hearing, unserved_code, code_in};

use coding::coding::{CALL, all_calls};
use layout::state::{NUMBERS, SERIALS};
use makers::answer::ANSWER;

// What is returned where nothing stands against it: each call's own number of refusal stands in its answer.
pub const CARRIED_OUT: u32 = 0;

// Why nothing is carried out. The numbers are C's (docs/LIBRARY.md).
#[derive(Clone, Copy, PartialEq, Eq)]
pub enum Unserved {
    NoState = 1,
    NoCall = 2,
    NoAnswers = 3,
}

impl Unserved {
    // What C reads.
    pub fn code(self) -> u32
        ensures { result ≡ unserved_code self }
    {
        self as u32
    }
}

// Whether as many numbers are lent as a state has, where they are only measured.
pub fn test_state(numbers: usize, serials: usize) -> Result<(), Unserved>
    ensures { code_in result ≡ state_admission numbers serials }
{
    if numbers != NUMBERS || serials != SERIALS {
        return Err(Unserved::NoState);
    }
    Ok(())
}

// What a list of calls is returned with, by how many numbers are lent for the answers, where the state's are there: C lends those at any
// length, and the exported functions make them arrays before this.
#[tactic(auto, using(crate::proofs::AdmitLaws::no_calls, crate::proofs::AdmitLaws::no_answers, crate::proofs::AdmitLaws::with_room, coding::proofs::CodingLaws::four_each))]
pub fn test_calls(calls: &[u64], answers: usize) -> Result<(), Unserved>
    ensures { code_in result ≡ hearing (call_list calls.now) answers }
{
    if !all_calls(calls) {
        return Err(Unserved::NoCall);
    }
    if answers / ANSWER < calls.len() / CALL {
        return Err(Unserved::NoAnswers);
    }
    Ok(())
}

// Why nothing is carried out where there is no call.
#[tactic(auto, using(crate::proofs::AdmitLaws::no_state, crate::proofs::AdmitLaws::none_listed))]
pub fn no_call(numbers: usize, serials: usize) -> Unserved
    ensures { (answers : ℕ) → unserved_code result ≡ admission numbers serials unlisted answers }
{
    if let Err(unserved) = test_state(numbers, serials) {
        return unserved;
    }
    Unserved::NoCall
}
