ghost use Rattle.std.specs.Prelude.{◌≡◌, ◌≤◌, ◌<◌, length};
ghost use Rattle.plans.specs.Plans.{finish_of, lacks, fitted};

use crate::verdict::{Finish, Planned};
use rules::refusal::Refusal;

// Whether a snapshot is open and so many entries exceed the free ones.
pub fn lacks(opened: u32, used: u32, room: usize, entries: usize) -> bool
    requires { used ≤ room }
    ensures { result ≡ lacks opened used room entries }
{
    if opened == 0 {
        return false;
    }
    room - (used as usize) < entries
}

// The entries of an end at the roots.
fn finish_entries(end: Finish) -> usize
    ensures value { result ≡ length (finish_of end) }
    ensures upper_bound { result ≤ 2 }
{
    match end {
        Finish::Nothing => 0,
        Finish::Crown(_, _, _) => 1,
        Finish::Unite(_, _, _, _) => 2,
    }
}

// LOG_FULL where the entries of the walks and of the end do not fit.
pub fn fitted(
    verdict: Result<Planned, Refusal>,
    opened: u32,
    used: u32,
    room: usize,
    walked: usize,
) -> Result<Planned, Refusal>
    requires used_le_room { used ≤ room }
    requires walked_bound { walked < 64 }
    ensures { result ≡ fitted opened used room walked verdict }
{
    let plan = verdict?;
    let entries = walked + finish_entries(plan.finish);
    if lacks(opened, used, room, entries) {
        return Err(Refusal::LogFull);
    }
    Ok(plan)
}
