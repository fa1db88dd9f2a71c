// Why words are refused, and how a word's fault travels: inside its card's, and that inside the fault that names the side.
ghost use Rattle.std.specs.Prelude.{◌≡◌};
ghost use Rattle.cards.specs.Faults.{number as number_of, short_buffer};
ghost use Rattle.cards.specs.declared.faults.SideFault.TheVariants.{Left, Right};

// Why a word is refused.
#[derive(Clone, Copy, PartialEq, Eq, Debug)]
pub enum Reason {
    // the words end before an end word
    Missing = 1,
    // a kind that may not stand here, or an unused bit that is set
    Kind = 2,
    // a number out of its range
    Range = 3,
    // not above the word before
    Order = 4,
    // more or fewer lines than the head says
    Lines = 5,
    // something follows the end word
    Trailing = 6,
}

impl Reason {
    // The number under which the refusal is told.
    pub fn number(self) -> u8
        ensures { result ≡ number_of self }
    {
        self as u8
    }
}

// A refused word and its place, counted from 0.
#[derive(Clone, Copy, PartialEq, Eq, Debug)]
pub struct WordFault {
    pub reason: Reason,
    pub place: usize,
}

// A refused card or test file.
#[derive(Clone, Copy, PartialEq, Eq, Debug)]
pub struct CardFault {
    pub word: WordFault,
}

// A refused left file of two. A rule of the project: a fault is kept as a left or a right one inside the fault that names the side, so that `?` turns it by `From`.
#[derive(Clone, Copy, PartialEq, Eq, Debug)]
pub struct LeftFault {
    pub card: CardFault,
}

// A refused right file of two.
#[derive(Clone, Copy, PartialEq, Eq, Debug)]
pub struct RightFault {
    pub card: CardFault,
}

// The first refused file of two.
#[derive(Clone, Copy, PartialEq, Eq, Debug)]
pub enum SideFault {
    Left(LeftFault),
    Right(RightFault),
}

// A buffer that is too short for what is to be written.
#[derive(Clone, Copy, PartialEq, Eq, Debug)]
pub struct ShortBuffer;

impl ShortBuffer {
    // The number under which the refusal is told.
    pub fn number(self) -> u8
        ensures { result ≡ short_buffer }
    {
        8
    }
}

// By hand: a contract names the error that a `?` makes, so each needs a `from_gives`, which no derive writes.
impl From<WordFault> for CardFault {
    ghost from_gives = { λ e f. f ≡ record { word = e } };

    fn from(e: WordFault) -> CardFault {
        CardFault { word: e }
    }
}

impl From<CardFault> for LeftFault {
    ghost from_gives = { λ e f. f ≡ record { card = e } };

    fn from(e: CardFault) -> LeftFault {
        LeftFault { card: e }
    }
}

impl From<CardFault> for RightFault {
    ghost from_gives = { λ e f. f ≡ record { card = e } };

    fn from(e: CardFault) -> RightFault {
        RightFault { card: e }
    }
}

impl From<LeftFault> for SideFault {
    ghost from_gives = { λ e f. f ≡ Left e };

    fn from(e: LeftFault) -> SideFault {
        SideFault::Left(e)
    }
}

impl From<RightFault> for SideFault {
    ghost from_gives = { λ e f. f ≡ Right e };

    fn from(e: RightFault) -> SideFault {
        SideFault::Right(e)
    }
}
