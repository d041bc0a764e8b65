ghost use Rattle.std.specs.Prelude.{◌≡◌, take, drop};
ghost use Rattle.lines.specs.Lines.{line as line_of, reached, keeping, gathering};

// How much of a line is kept, and whether there was more than there is room for: of a line that is too long, all that fits is kept,
// since its first byte tells a comment from an error.
#[derive(Clone, Copy, Default)]
pub struct Kept {
    pub n: usize,
    pub overlong: bool,
}

// The same after some bytes of the input, with the place after them, and whether the line ended there: a flag, since the others are
// read in both cases.
#[derive(Clone, Copy)]
pub struct Gathered {
    pub kept: Kept,
    pub next: usize,
    pub ended: bool,
}

// One more byte of a line that goes on.
fn gather_byte(line: &mut [u8], kept: Kept, byte: u8) -> Kept
    ensures { line_of line.new result.n result.overlong ≡ keeping (line_of line.old kept.n kept.overlong) byte }
{
    let n = kept.n;
    if n >= line.len() {
        return Kept { n, overlong: true };
    }
    line[n] = byte;
    Kept { n: n + 1, ..kept }
}

// The buffer is the caller's, with how much of it is used in `Kept`: the memory is fixed, and a line never makes it grow.
// Takes bytes from place `from` up to `count`, or up to a line feed, which it reads over. Nothing is asked of either (docs/CONTRACTS.md),
// so that a slice in their place would be cut, and tested, at the caller.
pub fn gather(line: &mut [u8], kept: Kept, input: &[u8], from: usize, count: usize) -> Gathered
    ensures { reached (line_of line.new result.kept.n result.kept.overlong) result.next result.ended
        ≡ gathering from (line_of line.old kept.n kept.overlong) (drop from (take count input.now)) }
{
    let end = count.min(input.len());
    let mut kept = kept;
    for (i, &byte) in input[from.min(end)..end].iter().enumerate() {
        if byte == b'\n' {
            return Gathered {
                kept,
                next: from + i + 1,
                ended: true,
            };
        }
        kept = gather_byte(line, kept, byte);
    }
    Gathered {
        kept,
        next: from.max(end),
        ended: false,
    }
}
