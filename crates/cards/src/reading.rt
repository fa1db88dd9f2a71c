// Checking the words of a card or a test.
ghost use Rattle.std.specs.Prelude.{◌≡◌, ℕ, ◌+◌, ◌*◌, ◌^◌, ◌<◌, ◌≤◌};
ghost use Rattle.cards.specs.Reading.{head_fits, checked_head as head_checked, encoded_head, within as within_in, counted as counted_in, judged, onward, step as stepped, ended as ended_in, check as checked};
ghost use Rattle.cards.specs.Words.{decode as decoded};

use crate::faults::{Reason, WordFault};
use crate::lines::*;
use crate::words::{bits, decode};

impl Head {
    fn fits(&self) -> bool
        ensures { result ≡ head_fits self.now }
    {
        0 < self.states && self.states <= 64 && self.start < self.states && self.lines <= 256
    }
}

// The first word. A rule of the project, here and below: a chain of let-else, one refusal a link.
impl TryFrom<u32> for Head {
    type Error = Reason;

    ghost try_from_gives = { λ word head. head ≡ head_checked word };

    fn try_from(word: u32) -> Result<Head, Reason> {
        let true = word >> 28 == 1 else {
            return Err(Reason::Kind);
        };
        let head = Head {
            lines: bits(word, 16, 12) as usize,
            start: bits(word, 8, 8) as usize,
            states: bits(word, 0, 8) as usize,
        };
        let true = head.fits() else {
            return Err(Reason::Range);
        };
        Ok(head)
    }
}

// Its inverse. No `From`, which cannot refuse: a head may hold numbers that have no room in a word.
impl TryFrom<Head> for u32 {
    type Error = Reason;

    ghost try_from_gives = { λ head word. word ≡ encoded_head head };

    fn try_from(head: Head) -> Result<u32, Reason> {
        if !head.fits() {
            return Err(Reason::Range);
        }
        let Head {
            lines,
            start,
            states,
        } = head;
        Ok(0x1000_0000 + lines as u32 * 0x1_0000 + start as u32 * 0x100 + states as u32)
    }
}

impl Word {
    // Whether the states that it names are below the number of states.
    fn within(self, states: usize) -> bool
        ensures { result ≡ within_in states self }
    {
        match self {
            Word::Line(line) => usize::from(line.from) < states && usize::from(line.to) < states,
            Word::Passing(state) => usize::from(state) < states,
            Word::End => true,
        }
    }

    // Whether it may come where so many lines are left to come.
    fn counted(self, left: usize) -> bool
        ensures { result ≡ counted_in left self }
    {
        match self {
            Word::Line(_) => 0 < left,
            Word::Passing(_) => true,
            Word::End => left == 0,
        }
    }
}

impl Body {
    // The next word, taken apart.
    fn part(self, role: Role, word: u32) -> Result<Word, Reason>
        ensures { result ≡ judged self word (decoded role word) }
    {
        let Some(part) = decode(role, word) else {
            return Err(Reason::Kind);
        };
        let true = part.within(self.head.states) else {
            return Err(Reason::Range);
        };
        let true = self.last < word else {
            return Err(Reason::Order);
        };
        let true = part.counted(self.left) else {
            return Err(Reason::Lines);
        };
        Ok(part)
    }

    // What is known after the next word.
    fn step(self, role: Role, word: u32) -> Result<Progress, Reason>
        ensures { result ≡ onward self word (judged self word (decoded role word)) }
    {
        let left = match self.part(role, word)? {
            Word::Line(_) => self.left.saturating_sub(1),
            Word::Passing(_) => self.left,
            Word::End => return Ok(Progress::Ended(self.head)),
        };
        Ok(Progress::Inside(Body {
            last: word,
            left,
            ..self
        }))
    }
}

impl Progress {
    // One word more, by where reading stands. A rule of the project: one `for` goes over all words, with the fault's place beside it, and no loop for each part.
    fn step(self, role: Role, word: u32) -> Result<Progress, Reason>
        ensures { result ≡ stepped role self word }
    {
        match self {
            Progress::Start => {
                let head = Head::try_from(word)?;
                Ok(Progress::Inside(Body {
                    head,
                    last: word,
                    left: head.lines,
                }))
            }
            Progress::Inside(body) => body.step(role, word),
            Progress::Ended(_) => Err(Reason::Trailing),
        }
    }

    // No word more.
    fn ended(self) -> Result<Head, Reason>
        ensures { result ≡ ended_in self }
    {
        match self {
            Progress::Start | Progress::Inside(_) => Err(Reason::Missing),
            Progress::Ended(head) => Ok(head),
        }
    }
}

// What the head of good words says, or the first fault. A rule of the project: the count beside the loop is the fault's place.
pub(crate) fn check(role: Role, words: &[u32]) -> Result<Head, WordFault>
    ensures { result ≡ checked role words.now }
{
    let mut progress = Progress::Start;
    let mut place = 0;
    for word in words {
        progress = progress
            .step(role, *word)
            .map_err(|reason| WordFault { reason, place })?;
        place += 1;
    }
    progress
        .ended()
        .map_err(|reason| WordFault { reason, place })
}
