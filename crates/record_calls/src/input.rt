use reading::read::{Reading, read_more, take};
use std::io;
use std::io::Read;

// The input read on, up to a line's end. A list that can't be read any further has no line that ends.
pub fn read_on<R: Read>(
    source: &mut R,
    reading: Reading,
    input: &mut [u8],
    line: &mut [u8],
) -> io::Result<Reading> {
    let filled = read_more(reading, source, input)?;
    Ok(take(filled, input, line))
}
