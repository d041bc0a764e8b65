use journal::known::Book;
use layout::state::LentState;
use rules::table::Lent;
use verb_journal::named::Shelf;

// What a list is recorded on: a table that is lent, and its journal with where that is kept.
#[derive(Drop)]
pub struct Desk<'a> {
    pub state: LentState<'a>,
    pub lent: Lent<'a>,
    pub book: Book<'a>,
    pub shelf: Shelf<'a>,
}
