// What a recorder knows of the journal that it adds to: its length in bytes and in segments, how many snapshots are open in it, and
// how many entries wait behind it for their trailer.
#[derive(Clone, Copy)]
pub struct Known {
    pub used: usize,
    pub segments: u64,
    pub open: u32,
    pub waiting: usize,
}

// A journal that is added to: the bytes lent for it, and what is known of it.
#[derive(Drop)]
pub struct Book<'a> {
    pub bytes: &'a mut [u8],
    pub known: Known,
}
