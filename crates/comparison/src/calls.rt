// The calls of a comparison as values, and what is told in the end.
use crate::answer::Progress;
use crate::refusal::Refusal;

// Begin with a limit, advance by a count of rows, ask, and copy into a buffer with so much room.
#[derive(Clone, Copy, PartialEq, Eq, Debug)]
pub enum Call {
    Begin(usize),
    Advance(usize),
    Ask,
    Copy(usize),
}

// What asking told, and what copying returned.
#[derive(Clone, Copy, PartialEq, Eq, Debug)]
pub struct Report {
    pub asked: Progress,
    pub copied: Result<usize, Refusal>,
}
