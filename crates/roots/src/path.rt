ghost use Rattle.std.specs.Prelude.{◌≡◌, IfSome, option_copied};
ghost use Rattle.rules.specs.Rules.{MAX-REDIRECTS, path};
ghost use Rattle.roots.specs.Trail.{traced, Short};

use crate::live::Live;

// The rows from a key to its root, both among them: `nodes[steps]` is the root. An array and a number, and no `Vec`: a walk has no heap,
// and an allocation could fail where nothing may.
#[derive(Clone, Copy)]
pub struct Trail {
    pub steps: usize,
    pub nodes: [u32; 17],
}

// Follows the parents of `key` for at most 16 redirects, and writes nothing but the trail that it answers, which lies with the caller: one
// that is answered by value is copied out of its `Option` right after its nodes were written, and that is slow (docs/BENCHMARKS.md).
pub fn trace_into<'a>(live: Live<'_>, key: u32, trail: &'a mut Trail) -> Option<&'a Trail>
    ensures result_value { let l = live.entry in
        traced (option_copied result) ≡ path l.parents.now l.count MAX-REDIRECTS key }
    ensures short { IfSome (option_copied result) Short }
{
    let Live { parents, count } = live;
    let mut at = key;
    for steps in 0..17 {
        if at >= count {
            return None;
        }
        trail.nodes[steps] = at;
        let parent = parents[at as usize];
        if parent == at {
            trail.steps = steps;
            return Some(trail);
        }
        at = parent;
    }
    None
}

// The same by value.
pub fn trace(live: Live<'_>, key: u32) -> Option<Trail>
    ensures result_value { let l = live.entry in
        traced result ≡ path l.parents.now l.count MAX-REDIRECTS key }
    ensures short { IfSome result Short }
{
    let mut trail = Trail {
        steps: 0,
        nodes: [0; 17],
    };
    trace_into(live, key, &mut trail).copied()
}
