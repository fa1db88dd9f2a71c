// Lines and faults as text.
ghost use Rattle.std.specs.Prelude.{Some};
ghost use Rattle.cards.specs.Display.{label_text, transition_text, word_fault_text};

use crate::faults::{CardFault, WordFault};
use crate::lines::{Label, Line};
use std::error::Error;
use std::fmt;

// The action, or h.
impl fmt::Display for Label {
    ghost output = { λ l. Some (label_text l) };

    fn fmt<W: fmt::Write>(&self, f: &mut fmt::Formatter<W>) -> fmt::Result {
        match self {
            Label::Action(action) => write!(f, "{action}"),
            Label::Silent => write!(f, "h"),
        }
    }
}

// from-label-to
impl fmt::Display for Line {
    ghost output = { λ l. Some (transition_text l) };

    fn fmt<W: fmt::Write>(&self, f: &mut fmt::Formatter<W>) -> fmt::Result {
        let Line { from, label, to } = *self;
        write!(f, "{from}-{label}-{to}")
    }
}

// The number of the reason and the word's place.
impl fmt::Display for WordFault {
    ghost output = { λ e. Some (word_fault_text e) };

    fn fmt<W: fmt::Write>(&self, f: &mut fmt::Formatter<W>) -> fmt::Result {
        let number = self.reason.number();
        let place = self.place;
        write!(f, "FAULT {number} at {place}")
    }
}

impl Error for WordFault {}

impl fmt::Display for CardFault {
    ghost output = { λ e. Some (word_fault_text e.word) };

    fn fmt<W: fmt::Write>(&self, f: &mut fmt::Formatter<W>) -> fmt::Result {
        self.word.fmt(f)
    }
}

impl Error for CardFault {}
