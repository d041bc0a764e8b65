ghost use Rattle.std.specs.Prelude.{◌≡◌, true, ◌+◌, ◌≤◌, ◌<◌, length, get_or, nat_eq};
ghost use Rattle.std.specs.List.{list_all};
ghost use Rattle.coding.specs.Coding.{CODES, FormedAt, is_asked, asked_at, call_at, call_list, is_listed};

use rules::call::Call;
use rules::numbers::WORD;

// How many numbers a call has.
pub const CALL: usize = 4;

// How many codes there are. They are C's (docs/LIBRARY.md), so they stay numbers.
const CODES: u64 = 15;

// Codes from here on name a token: first those that close a snapshot, then those that ask about one.
pub const TOKENS: u64 = 10;

pub const QUESTIONS: u64 = 12;

// Keys and owners are below 2^32, amounts and tokens below 2^64; a number that a call does not have is 0.
const UNUSED: u64 = 0;

const SHORT: u64 = 4294967295;

const LONG: u64 = 18446744073709551615;

// How large a call's three numbers may be.
#[derive(Drop)]
pub struct Limits(pub u64, pub u64, pub u64);

// What a code stands for: its limits, and the call that is made of three numbers within them.
#[derive(Drop)]
pub struct Form(pub Limits, pub Call);

// What a code stands for. No enum of the codes stands between: a list that C lends may hold any number, and each is read here alone.
fn form_of(call: &[u64; CALL]) -> Form
    requires { get_or call.now 0 0 < CODES }
    ensures { FormedAt call.now 0 result }
{
    let [code, a, b, c] = *call;
    // The lower 32 bits: the limits tell where more than those stand.
    let key = (a % WORD) as u32;
    let other = (b % WORD) as u32;
    match code {
        0 => Form(Limits(SHORT, LONG, UNUSED), Call::New(key, b)),
        1 => Form(Limits(UNUSED, UNUSED, UNUSED), Call::Len),
        2 => Form(Limits(SHORT, UNUSED, UNUSED), Call::Find(key)),
        3 => Form(Limits(SHORT, SHORT, UNUSED), Call::Unioned(key, other)),
        4 => Form(Limits(SHORT, SHORT, UNUSED), Call::Join(key, other)),
        5 => Form(Limits(SHORT, SHORT, LONG), Call::Post(key, other, c)),
        6 => Form(Limits(SHORT, UNUSED, UNUSED), Call::Probe(key)),
        7 => Form(Limits(SHORT, UNUSED, UNUSED), Call::ProbeKey(key)),
        8 => Form(Limits(SHORT, UNUSED, UNUSED), Call::TryProbe(key)),
        9 => Form(Limits(UNUSED, UNUSED, UNUSED), Call::Snapshot),
        10 => Form(Limits(LONG, UNUSED, UNUSED), Call::Rollback(a)),
        11 => Form(Limits(LONG, UNUSED, UNUSED), Call::Commit(a)),
        12 => Form(Limits(LONG, UNUSED, UNUSED), Call::Keys(a)),
        13 => Form(Limits(LONG, UNUSED, UNUSED), Call::Actions(a)),
        _ => Form(Limits(LONG, UNUSED, UNUSED), Call::Changes(a)),
    }
}

// Whether four numbers are a call whose code names a token, which may be any number.
#[tactic(auto, using(crate::proofs::CodingLaws::no_code, crate::proofs::CodingLaws::more_than_token, crate::proofs::CodingLaws::token_alone))]
fn is_token_call(call: &[u64; CALL]) -> bool
    requires { 10 ≤ get_or call.now 0 0 }
    ensures { result ≡ is_asked (asked_at call.now 0) }
{
    let [code, _token, b, c] = *call;
    code < CODES && b <= UNUSED && c <= UNUSED
}

// Whether four numbers are a call. Most name no token, and those are told first.
#[tactic(auto, using(crate::proofs::CodingLaws::is_fit))]
fn is_call(call: &[u64; CALL]) -> bool
    ensures { result ≡ is_asked (asked_at call.now 0) }
{
    let [code, a, b, c] = *call;
    if code >= TOKENS {
        return is_token_call(call);
    }
    let most = form_of(call).0;
    a <= most.0 && b <= most.1 && c <= most.2
}

// The call that four numbers ask for.
#[tactic(auto, using(crate::proofs::CodingLaws::known, crate::proofs::CodingLaws::made))]
fn make_call(call: &[u64; CALL]) -> Call
    requires { is_asked (asked_at call.now 0) ≡ true }
    ensures { result ≡ call_at call.now 0 }
{
    form_of(call).1
}

// The call that stands at a place of a list, which was tested to be one.
pub fn call_at(calls: &[u64], at: usize) -> Call
    requires at_in_bounds { at + 4 ≤ length calls.now }
    requires at_value { is_asked (asked_at calls.now at) ≡ true }
    ensures { result ≡ call_at calls.now at }
{
    make_call(&[calls[at], calls[at + 1], calls[at + 2], calls[at + 3]])
}

// Whether all of them, four numbers each, are calls.
fn are_calls(calls: &[[u64; CALL]]) -> bool
    ensures { result ≡ list_all (λ call. is_asked (asked_at call 0)) calls.now }
{
    calls.iter().all(is_call)
}

// Whether no number is left over after the last four.
fn comes_out_even(rest: &[u64]) -> bool
    ensures { result ≡ nat_eq (length rest.now) 0 }
{
    rest.is_empty()
}

// Whether a list is one of calls, four numbers to each.
#[tactic(auto, using(crate::proofs::CodingLaws::none_listed))]
pub fn all_calls(calls: &[u64]) -> bool
    ensures { result ≡ is_listed (call_list calls.now) }
{
    let (calls, rest) = calls.as_chunks();
    comes_out_even(rest) && are_calls(calls)
}
