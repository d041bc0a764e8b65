ghost use Rattle.std.specs.Prelude.{◌≡◌, ◌<◌};
ghost use Rattle.roots.specs.Near.{near_of};

use crate::live::Live;

// Where a walk of at most one redirect leads.
#[derive(Clone, Copy)]
pub struct Near {
    pub root: u32,
    pub steps: u32,
}

// The walk of a live key, where it has at most one redirect: nearly all walks are such, and rewrite nothing.
pub fn near_root(live: Live<'_>, key: u32) -> Option<Near>
    requires { key < live.count }
    ensures { let l = live.entry in
        result ≡ near_of l.parents.now l.count key }
{
    let Live { parents, count } = live;
    let next = parents[key as usize];
    if next == key {
        return Some(Near {
            root: key,
            steps: 0,
        });
    }
    if next >= count || parents[next as usize] != next {
        return None;
    }
    Some(Near {
        root: next,
        steps: 1,
    })
}
