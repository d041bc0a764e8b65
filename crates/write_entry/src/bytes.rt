ghost use Rattle.std.specs.Prelude.{◌≡◌, ◌+◌, ◌≤◌, length};
ghost use Rattle.kit.specs.Names.{sets};

// Writes bytes from a place on. One by one: `copy_from_slice` calls the C library's `memmove` for as many as a segment has, and who links the
// archives need not have it (docs/LIBRARY.md).
pub fn put_bytes(bytes: &mut [u8], at: usize, text: &[u8])
    requires { at + length text.now ≤ length bytes.old }
    ensures { bytes.new ≡ sets bytes.old at text.now }
{
    for (i, &byte) in text.iter().enumerate() {
        bytes[at + i] = byte;
    }
}

// Writes a number's bytes from a place on.
pub fn put<const N: usize>(bytes: &mut [u8], at: usize, number: [u8; N])
    requires { at + N ≤ length bytes.old }
    ensures { bytes.new ≡ sets bytes.old at number.entry }
{
    put_bytes(bytes, at, &number);
}
