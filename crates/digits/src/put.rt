// Bytes and numbers, printed at a page's place; the place moves behind what was printed. Functions and no `write!`: what that says of the
// bytes it says where it answers `Ok`, and nothing in its contract rules an `Err` out where there is room. These can't fail.
ghost use Rattle.std.specs.Prelude.{[], ◌∷◌, ◌+◌, ◌*◌, ◌≤◌, ◌<◌, length};
ghost use Rattle.digits.specs.Printed.{spell, listed};
ghost use Rattle.digits.specs.Page.{SamePage, Prints, Moves};

// A buffer that is printed into, and the place where printing goes on.
#[derive(Drop)]
pub struct Page<'a> {
    pub bytes: &'a mut [u8],
    pub at: usize,
}

// One byte.
pub fn put_byte(page: &mut Page<'_>, byte: u8)
    requires { page.old.at < length page.old.bytes.now }
    ensures same_page { SamePage page.old page.new }
    ensures printed { Prints page.old page.new (byte ∷ []) }
{
    page.bytes[page.at] = byte;
    page.at += 1;
}

// Some bytes.
pub fn put_bytes(page: &mut Page<'_>, bytes: &[u8])
    requires { page.old.at + length bytes.now ≤ length page.old.bytes.now }
    ensures same_page { SamePage page.old page.new }
    ensures printed { Prints page.old page.new bytes.now }
{
    let end = page.at + bytes.len();
    page.bytes[page.at..end].copy_from_slice(bytes);
    page.at = end;
}

// A number's decimal digits, the fewest that hold it.
#[tactic(auto, using(crate::proofs::PrintLaws::spelt))]
pub fn put_number(page: &mut Page<'_>, n: u64)
    requires { page.old.at + 20 ≤ length page.old.bytes.now }
    ensures same_page { SamePage page.old page.new }
    ensures printed { Prints page.old page.new (spell n) }
    ensures moves { Moves page.old page.new 20 }
{
    let mut digits = [0u8; 20];
    let count = io::decimal(n, &mut digits);
    put_bytes(page, &digits[..count]);
}

// A blank and a number.
pub fn put_next(page: &mut Page<'_>, n: u64)
    requires { page.old.at + 21 ≤ length page.old.bytes.now }
    ensures same_page { SamePage page.old page.new }
    ensures printed { Prints page.old page.new (listed (n ∷ [])) }
    ensures moves { Moves page.old page.new 21 }
{
    put_byte(page, b' ');
    put_number(page, n);
}

// Numbers, a blank before each.
pub fn put_list(page: &mut Page<'_>, numbers: &[u64])
    requires { page.old.at + 21 * length numbers.now ≤ length page.old.bytes.now }
    ensures same_page { SamePage page.old page.new }
    ensures printed { Prints page.old page.new (listed numbers.now) }
    ensures lower_bound { (page.old.at ≤ page.new.at) × (page.new.at ≤ page.old.at + 21 * length numbers.now) }
{
    for &n in numbers {
        put_next(page, n);
    }
}
