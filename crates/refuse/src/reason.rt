// Why a call is refused.
ghost use Rattle.std.specs.Prelude.{◌≡◌};
ghost use Rattle.refuse.specs.Told.{number_of};

// The reasons, each with the number that a call answers for it.
#[derive(Clone, Copy, Debug, PartialEq, Eq)]
pub enum Reason {
    Sides = 1,
    Samples = 2,
    Levels = 3,
    TopBorder = 4,
    WorkBytes = 5,
    WordPlaces = 6,
    TreePlaces = 7,
    UnfitWord = 8,
    Room = 9,
    NotCrossed = 10,
    NotThere = 11,
    FileLength = 12,
    BlockCheck = 13,
    FileLayout = 14,
    FileRoom = 15,
    ManyWords = 16,
    BottomBorder = 17,
    LeftBorder = 18,
    RightBorder = 19,
    PgmHeader = 22,
    AboveMaximum = 23,
    NoSample = 24,
}

impl Reason {
    // Its number.
    pub fn number(self) -> u32
        ensures { result ≡ number_of self }
    {
        self as u32
    }
}

// A refusal: why, and the place that the answer gives.
#[derive(Clone, Copy, Debug, PartialEq, Eq)]
pub struct Refusal {
    pub reason: Reason,
    pub place: usize,
}
