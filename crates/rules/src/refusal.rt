// Why a call is refused, or a journal: document 01, "Numbers of refusal", and document 02's two.
ghost use Rattle.std.specs.Prelude.{◌≡◌};
ghost use Rattle.rules.specs.Refused.{code_of};

#[derive(Clone, Copy, PartialEq, Eq)]
pub enum Refusal {
    NoKey = 1,
    KeysFull = 2,
    LogFull = 3,
    OwnerClash = 4,
    TooMuch = 5,
    NotInnermost = 6,
    TooDeep = 7,
    BrokenTable = 8,
    BadState = 9,
    SerialsSpent = 10,
    NotOpen = 11,
    BadJournal = 12,
    NoRoom = 16,
}

impl Refusal {
    // Its number.
    pub fn code(self) -> u32
        ensures { result ≡ code_of self }
    {
        self as u32
    }
}
