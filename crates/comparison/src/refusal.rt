// Why a call of a comparison is refused.
ghost use Rattle.std.specs.Prelude.{◌≡◌};
ghost use Rattle.comparison.specs.Calls.{number_of};

use testing::distinguishing::TraceFault;
use thiserror::Error;

#[derive(Clone, Copy, PartialEq, Eq, Debug, Error)]
pub enum Refusal {
    // copy, when the caller's buffer is shorter than the trace
    #[error("the buffer is shorter than the trace")]
    ShortBuffer = 8,
    // begin's limit or advance's count is 0 or above 2,048
    #[error("the limit or the count is 0 or above 2,048")]
    LimitOrCount = 9,
    // advance, when the answer is not OPEN
    #[error("the answer is not OPEN")]
    NotOpen = 10,
    // copy, and filling a distinguishing test, when the answer is not APART
    #[error("the answer is not APART")]
    NotApart = 11,
    // filling a distinguishing test, when the trace has more than 62 actions
    #[error("the trace has more than 62 actions")]
    LongTrace = 12,
}

impl Refusal {
    // The number that stands for the refusal outside the program.
    pub fn number(self) -> u8
        ensures { result ≡ number_of self }
    {
        self as u8
    }
}

impl From<TraceFault> for Refusal {
    ghost use Rattle.comparison.specs.declared.refusal.Refusal.TheVariants.{LongTrace};

    ghost from_gives = { λ _ r. r ≡ LongTrace };

    fn from(_: TraceFault) -> Refusal {
        Refusal::LongTrace
    }
}
