// The entries since a snapshot, printed as they are lent: each is read through the view of the log.
ghost use Rattle.digits.specs.Page.{SamePage};
ghost use Rattle.show.specs.Pieces.{Says};
ghost use Rattle.show.specs.Shown.{numbers_pieces, since_pieces};

use crate::buffer::Output;
use crate::show::put_entry;
use actions::view::actions_between;
use parts::entries::Numbers;
use print::print::Cells;

// An entry's six numbers, after a bar.
fn entry(out: &mut Output<'_>, numbers: Numbers)
    ensures same_page { SamePage out.old.page out.new.page }
    ensures said { Says out.old.page out.new.page (numbers_pieces numbers) }
{
    let old = numbers.old;
    let row = Cells {
        parent: Some(old.parent as u64),
        rank: Some(old.rank as u64),
        owner: Some(u32::from(old.owner) as u64),
        amount: Some(old.amount),
    };
    put_entry(
        out,
        Some(numbers.kind as u64),
        Some(numbers.key as u64),
        row,
    );
}

// The entries of the log from one to another, oldest first.
pub fn entries_since(out: &mut Output<'_>, log: &[u32], from: u32, to: u32)
    ensures same_page { SamePage out.old.page out.new.page }
    ensures said { Says out.old.page out.new.page (since_pieces log.now from to) }
{
    let view = actions_between(log, from, to);
    for i in 0..to.saturating_sub(from) {
        entry(out, view.lent_entry(i as usize));
    }
}
