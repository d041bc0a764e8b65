// An amount as two words, as the log holds it. Functions and no `From`, which cannot be written for a pair and a `u64`.
ghost use Rattle.std.specs.Prelude.{◌≡◌};
ghost use Rattle.rules.specs.Rules.{amount_of, low_of, high_of};

use rules::numbers::WORD;

pub fn amount_of(low: u32, high: u32) -> u64
    ensures { result ≡ amount_of low high }
{
    low as u64 + high as u64 * WORD
}

pub fn low_of(amount: u64) -> u32
    ensures { result ≡ low_of amount }
{
    (amount % WORD) as u32
}

pub fn high_of(amount: u64) -> u32
    ensures { result ≡ high_of amount }
{
    (amount / WORD) as u32
}
