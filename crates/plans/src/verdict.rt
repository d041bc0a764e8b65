ghost use Rattle.std.specs.Prelude.{◌≡◌};
ghost use Rattle.plans.specs.Plans.{still, unmerged};

use makers::answer::stepped;
use rules::call::Answer;
use rules::refusal::Refusal;
use rules::table::{MergeError, Row, Value};

// A root that a walk led to, with its row.
#[derive(Clone, Copy)]
pub struct Root {
    pub key: u32,
    pub row: Row,
}

// What is written at the roots, after the walks.
#[derive(Clone, Copy)]
pub enum Finish {
    Nothing,
    // a root's rank and value
    Crown(u32, u32, Value),
    // the root that redirects, the one that it redirects to, with its rank and value
    Unite(u32, u32, u32, Value),
}

// What a call that walks comes to where it isn't refused: an answer, the walks, and an end at the roots. A refusal leaves even the
// walks unwritten.
#[derive(Clone, Copy)]
pub struct Planned {
    pub answer: Answer,
    pub finish: Finish,
}

impl Planned {
    // Nothing is written at the roots.
    pub fn still(answer: Answer) -> Planned
        ensures { result ≡ still answer }
    {
        Planned {
            answer,
            finish: Finish::Nothing,
        }
    }

    // "A merge that fails logs only its walks' entries".
    pub fn unmerged(why: MergeError, steps: u32) -> Planned
        ensures { result ≡ unmerged why steps }
    {
        let no = Refusal::from(why);
        Planned::still(stepped(no.code(), steps))
    }
}

// The calls that walk from one key, and those that walk from two.
#[derive(Clone, Copy)]
pub enum OneCall {
    Find,
    Probe,
    ProbeKey,
    Post(u32, u64),
}

#[derive(Clone, Copy)]
pub enum TwoCall {
    Unioned,
    Join,
}
