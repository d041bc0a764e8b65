ghost use Rattle.std.specs.Prelude.{◌≡◌, ◌≤◌};
ghost use Rattle.words.specs.Numeral.{numeral};

// A word of digits alone whose value is at most the limit. Zeros in front are allowed.
// The limit's own clause is for `limit - d`; a limit under 9 is asked for nowhere.
// Each digit is tested before it is taken in, so that no word, however long, wraps.
pub fn read(word: &[u8], limit: u64) -> Option<u64>
    requires { 9 ≤ limit }
    ensures { result ≡ numeral limit word.now }
{
    if word.is_empty() {
        return None;
    }
    let mut n: u64 = 0;
    for &byte in word {
        if !byte.is_ascii_digit() {
            return None;
        }
        let d = u64::from(byte - b'0');
        if n > (limit - d) / 10 {
            return None;
        }
        n = n * 10 + d;
    }
    Some(n)
}
