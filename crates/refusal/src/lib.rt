// Refusals: why a call refuses, and where.
#![tactic(auto)]

ghost use Rattle.std.specs.Prelude.{◌≡◌};
ghost use Rattle.refusal.specs.Refusal.{number_of};

// Why a call refuses, with the number of the table of refusals.
#[derive(Clone, Copy, Debug, PartialEq, Eq, Hash)]
pub enum Reason {
    UnknownKind = 1,
    CutOff = 2,
    TaskAfterRelease = 3,
    TooManyTasks = 4,
    NoTask = 5,
    OutOfRange = 6,
    ReleaseTask = 7,
    ReleaseTick = 8,
    ReleaseCost = 9,
    TooManyReleases = 10,
    ByteAfterEnd = 11,
    KeptOverJitter = 12,
    ShortSlice = 13,
    NoSuchTask = 14,
    Unfit = 15,
    Line = 16,
    Charge = 17,
    Frame = 18,
    Stale = 19,
    TooSoon = 20,
}

impl Reason {
    // The number in the table of refusals.
    pub fn number(self) -> u32
        ensures { result ≡ number_of self }
    {
        self as u32
    }
}

// A refusal: why, and the place.
#[derive(Clone, Copy, Debug, PartialEq, Eq, Hash)]
pub struct Refusal {
    pub reason: Reason,
    pub place: usize,
}
