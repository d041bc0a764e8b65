ghost use Rattle.std.specs.Prelude.{◌≡◌, ◌++◌, ◌+◌, ◌-◌, ◌≤◌, ◌↔◌, ◌<◌, ◌≢◌, ℕ, length, take, get_or, IsSome, IfSome, IfNone};

// Puts a path and a suffix, one after the other, at the buffer's start, for who reads the buffer itself afterwards: their length, or 0 where
// they don't fit. Whether that is too long for a path is not asked here: who opens it says so. Bytes and a buffer, and no text:
// docs/CONTRACTS.md names the function, so it asks no more.
pub fn put_path(path: &[u8], suffix: &[u8], buffer: &mut [u8]) -> usize
    ensures prefix_len { result ≤ length buffer.new }
    ensures buffer_after { length path.now + length suffix.now ≤ length buffer.old → take result buffer.new ≡ path.now ++ suffix.now }
    ensures nothing { length buffer.old < length path.now + length suffix.now → (result ≡ 0) × (buffer.new ≡ buffer.old) }
{
    let end = path.len() + suffix.len();
    if end > buffer.len() {
        return 0;
    }
    buffer[..path.len()].copy_from_slice(path);
    buffer[path.len()..end].copy_from_slice(suffix);
    end
}

// The path with the suffix itself, in the buffer: nothing where it doesn't fit.
pub fn path_with<'a>(path: &[u8], suffix: &[u8], buffer: &'a mut [u8]) -> Option<&'a [u8]>
    ensures fits { IsSome result ↔ (length path.now + length suffix.now ≤ length buffer.old) }
    ensures value { IfSome result (λ whole. whole.now ≡ path.now ++ suffix.now) }
{
    let end = path.len() + suffix.len();
    put_path(path, suffix, buffer);
    buffer.get(..end)
}

// A path's directory, with the slash: nothing where it has none.
pub fn directory(path: &str) -> Option<&str>
    ensures prefix { IfSome result (λ front. front.now ≡ take (length front.now) path.now) }
    ensures none { IfNone result ((i : ℕ) → i < length path.now → get_or path.now i 0 ≢ 47) }
    ensures slash { IfSome result (λ front. get_or front.now (length front.now - 1) 0 ≡ 47) }
{
    let slash = path.rfind('/')?;
    Some(&path[..=slash])
}
