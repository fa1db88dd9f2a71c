// The transitions of a written card.

// What a line bears. An `Option` of an action would be no plainer: it could not print itself as `h`.
#[derive(Clone, Copy, PartialEq, Eq, Debug)]
pub enum Label {
    Action(u8),
    Silent,
}

// One transition of a written card; planners call it a line.
#[derive(Clone, Copy, PartialEq, Eq, Debug)]
pub struct Line {
    pub from: u8,
    pub label: Label,
    pub to: u8,
}

// What a head word says.
#[derive(Clone, Copy, PartialEq, Eq, Debug)]
pub struct Head {
    pub lines: usize,
    pub start: usize,
    pub states: usize,
}

// A word after the head, taken apart.
#[derive(Clone, Copy, PartialEq, Eq, Debug)]
pub enum Word {
    Line(Line),
    Passing(u8),
    End,
}

// What is read: only a test has passing states.
#[derive(Clone, Copy, PartialEq, Eq, Debug)]
pub enum Role {
    Card,
    Test,
}

// What is known between the head and the end: the head, the word before, and how many lines are to come.
#[derive(Clone, Copy, PartialEq, Eq, Debug)]
pub struct Body {
    pub head: Head,
    pub last: u32,
    pub left: usize,
}

// How far the reading of words has come.
#[derive(Clone, Copy, PartialEq, Eq, Debug)]
pub enum Progress {
    // nothing is read
    Start,
    // the head is read
    Inside(Body),
    // the end word is read
    Ended(Head),
}
