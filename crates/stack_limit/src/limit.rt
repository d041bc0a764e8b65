// The limit as the system tells it in a text.
use files::read::read_front;
use std::rt::Files;
use words::number::read;
use words::words::Words;

// The bytes of stack that the program may use: nothing where that is not known, or has no limit. (Under an emulator a stack without a
// limit is a small one.)
pub fn stack_limit(rt: &impl Files) -> Option<u64> {
    let mut text = [0; 4096];
    limit_in(read_front(rt, "/proc/self/limits", &mut text).ok()?)
}

// The soft limit in the text's line about the stack: the first word after its name.
fn limit_in(text: &[u8]) -> Option<u64> {
    let name = b"Max stack size".as_slice();
    let start = text.windows(name.len()).position(|part| part == name)?;
    read(Words(&text[start + name.len()..]).next()?, u64::MAX)
}
