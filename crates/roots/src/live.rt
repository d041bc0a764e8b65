ghost use Rattle.std.specs.Prelude.{◌≤◌, length};

// The parents that are lent, and how many of them are of live keys. That those all lie in what is lent is in the type: each walk rests
// on it.
#[derive(Clone, Copy)]
pub struct Live<'a> {
    pub parents: &'a [u32],
    pub count: u32,
    ghost inside: { count ≤ length parents.now },
}
