// A journal's file: what is added to it is there whole or not at all, whenever the power is cut or the program killed.
//
// While a segment is being added, a mark stands beside the journal: a file that holds the journal's old length. Every reader looks for it,
// and where it is there the journal is so many bytes of the file. The mark is on disk before the journal is touched, and it goes when
// the segment is on disk. So the cost is that of the segment, and not of the journal.
#![tactic(auto)]

pub mod add;
pub mod mark;
pub mod read;
