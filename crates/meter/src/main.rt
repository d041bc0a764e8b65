// Reads a list of calls from standard input and prints their answers. What one turn does is said in `turn`.
#![tactic(auto)]

use crate::turn::turn;
use reading::read::begin;
use rules::table::Lent;
use show::buffer::{Output, flush};
use std::alloc::AllocError;
use std::io::Read;

mod turn;

// A proved loop has to end, and nothing says that the input does: so turns are counted, up to a number that no run reaches.
fn work<R: Read>(
    source: &mut R,
    lent: &mut Lent<'_>,
    input: &mut [u8],
    line: &mut [u8],
    out: &mut Output<'_>,
) {
    let mut reading = begin();
    for _ in 0..u64::MAX {
        if !reading.more {
            break;
        }
        turn(&mut reading, source, lent, input, line, out);
    }
    flush(out);
}

// The memory that is lent.
fn main(rt: HostRuntime) -> Result<(), AllocError> {
    let mut parents = vec![in rt.alloc(); 0u32; 65600]?;
    let mut crowns = vec![in rt.alloc(); 0u32; 131200]?;
    let mut amounts = vec![in rt.alloc(); 0u64; 65600]?;
    let mut log = vec![in rt.alloc(); 0u32; 917504]?;
    let mut input = [0u8; 65536];
    let mut line = [0u8; 65536];
    let mut bytes = [0u8; 65536];
    let mut out = Output::new(&mut bytes);
    let mut lent = Lent {
        parents: &mut parents,
        crowns: &mut crowns,
        amounts: &mut amounts,
        log: &mut log,
    };
    work(&mut rt.reader(), &mut lent, &mut input, &mut line, &mut out);
    Ok(())
}
