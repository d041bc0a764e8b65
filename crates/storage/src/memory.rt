// The memory that is lent for a table, for a line and for a journal.
ghost use Rattle.std.specs.Prelude.{◌≡◌, ◌*◌, IfOk, vec_len};

use rules::numbers::ENTRY;
use std::alloc::{AllocError, Global};

// How much of it there is: rows, entries of the log, and the bytes of a line and of a journal.
#[derive(Clone, Copy)]
pub struct Sizes {
    pub rows: u32,
    pub entries: u32,
    pub line: usize,
    pub journal: usize,
}

#[derive(Drop)]
pub struct Memory {
    pub parents: Vec<u32>,
    pub crowns: Vec<u32>,
    pub amounts: Vec<u64>,
    pub log: Vec<u32>,
    pub line: Vec<u8>,
    pub journal: Vec<u8>,
}

impl Memory {
    // All of it 0.
    pub fn new(alloc: Global, sizes: Sizes) -> Result<Memory, AllocError>
        ensures rows { IfOk result (λ m. (vec_len m.parents ≡ sizes.rows) × (vec_len m.crowns ≡ sizes.rows * 2) × (vec_len m.amounts ≡ sizes.rows)) }
        ensures log { IfOk result (λ m. vec_len m.log ≡ sizes.entries * 7) }
        ensures bytes { IfOk result (λ m. (vec_len m.line ≡ sizes.line) × (vec_len m.journal ≡ sizes.journal)) }
    {
        let rows = sizes.rows as usize;
        let entries = sizes.entries as usize;
        Ok(Memory {
            parents: vec![in alloc; 0; rows]?,
            crowns: vec![in alloc; 0; rows * 2]?,
            amounts: vec![in alloc; 0; rows]?,
            log: vec![in alloc; 0; entries * ENTRY]?,
            line: vec![in alloc; 0; sizes.line]?,
            journal: vec![in alloc; 0; sizes.journal]?,
        })
    }
}

#[cfg(test)]
mod tests {
    use super::*;

    #[test]
    fn there_is_memory(rt: HostRuntime) -> Result<(), AllocError> {
        let small = Sizes {
            rows: 2,
            entries: 3,
            line: 5,
            journal: 7,
        };
        let memory = Memory::new(rt.alloc(), small)?;
        assert_eq!(rt; memory.crowns.len(), 4);
        assert_eq!(rt; memory.log.len(), 21);
        Ok(())
    }
}
