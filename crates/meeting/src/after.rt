ghost use Rattle.std.specs.Prelude.{◌≡◌, Some, IfSome, option_copied};
ghost use Rattle.rules.specs.Rules.{MAX-REDIRECTS, path};
ghost use Rattle.roots.specs.Trail.{traced, Short, compressed};

use roots::live::Live;
use roots::path::Trail;

// The trail of `key` in the table as a walk from `a` along `first` leaves it, before that walk is made. From the first node that
// lies on `first` it is one redirect to the root, or none where that node is the root. It is told in the trail that is lent, as in
// `roots::path::trace_into`.
pub fn trace_after_into<'a>(
    live: Live<'_>,
    a: u32,
    first: Trail,
    key: u32,
    trail: &'a mut Trail,
) -> Option<&'a Trail>
    requires first_value { traced (Some first) ≡ path live.parents.now live.count MAX-REDIRECTS a }
    requires short { Short first }
    ensures result_value { let l = live.entry in
        traced (option_copied result) ≡ path (compressed first l.parents.now) l.count MAX-REDIRECTS key }
    ensures short_2 { IfSome (option_copied result) Short }
{
    let Live { parents, count } = live;
    let passed = &first.nodes[..first.steps];
    let root = first.nodes[first.steps];
    let mut steps: usize = 0;
    let mut at = key;
    // Nested loops, left by a label at the first meeting: document 01's form of "the first node of the second path that lies on the
    // first". A `for` would not keep `steps` past the label.
    'walk: while at < count {
        trail.nodes[steps] = at;
        for node in passed {
            if *node == at {
                break 'walk;
            }
        }
        let parent = parents[at as usize];
        if parent == at {
            trail.steps = steps;
            return Some(trail);
        }
        if steps == 16 {
            return None;
        }
        at = parent;
        steps += 1;
    }
    if at >= count || steps == 16 {
        return None;
    }
    steps += 1;
    trail.nodes[steps] = root;
    trail.steps = steps;
    Some(trail)
}

// The same by value.
pub fn trace_after(live: Live<'_>, a: u32, first: Trail, key: u32) -> Option<Trail>
    requires first_value { traced (Some first) ≡ path live.parents.now live.count MAX-REDIRECTS a }
    requires short { Short first }
    ensures result_value { let l = live.entry in
        traced result ≡ path (compressed first l.parents.now) l.count MAX-REDIRECTS key }
    ensures short_2 { IfSome result Short }
{
    let mut trail = Trail {
        steps: 0,
        nodes: [0; 17],
    };
    trace_after_into(live, a, first, key, &mut trail).copied()
}
