// The answer of a comparison so far, and what its calls tell of it.
use testing::ground::Split;

// Open: rows wait to be handled. Alike: none waits. Full: a pair more than the limit was met. Apart: a trace splits the two systems, in this way.
#[derive(Clone, Copy, PartialEq, Eq, Debug)]
pub enum Answer {
    Open,
    Alike,
    Full,
    Apart(Split),
}

// The answer, and the number of rows.
#[derive(Clone, Copy, PartialEq, Eq, Debug)]
pub struct Progress {
    pub answer: Answer,
    pub rows: usize,
}
