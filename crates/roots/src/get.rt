ghost use Rattle.std.specs.Prelude.{◌≡◌, ◌-◌, ◌<◌};
ghost use Rattle.rules.specs.Rules.{path};
ghost use Rattle.roots.specs.Trail.{Leads, landed, land};

// The root of `vid`, with `left` redirects at most. The rows on the way but the last then redirect to it, the nearest first.
#[cycle(inlined_get_root_key_uninlined_get_root_key)]
pub fn inlined_get_root_key(parents: &mut [u32], count: u32, left: u32, vid: u32) -> u32
    requires { Leads parents.old count left vid }
    ensures { landed result parents.new ≡ land (path parents.old count left vid) parents.old }
{
    let at = vid as usize;
    let redirect = parents[at];
    if redirect == vid {
        return vid;
    }
    let root = uninlined_get_root_key(parents, count, left, redirect);
    if root == redirect {
        return root;
    }
    parents[at] = root;
    root
}

// The same walk with one redirect less, for `inlined_get_root_key` to come back to. Two functions in a cycle, and no loop: document
// 01's form of ena's pair.
#[cycle(inlined_get_root_key_uninlined_get_root_key)]
fn uninlined_get_root_key(parents: &mut [u32], count: u32, left: u32, vid: u32) -> u32
    requires { (0 < left) × Leads parents.old count (left - 1) vid }
    ensures { landed result parents.new ≡ land (path parents.old count (left - 1) vid) parents.old }
{
    inlined_get_root_key(parents, count, left - 1, vid)
}
