// Making, reading, writing and asking written tests.
ghost use Rattle.std.specs.Prelude.{◌≡◌, ℕ, ◌≤◌, [], length, IfOk, Ok, OnOk};
ghost use Rattle.cards.specs.declared.lines.Role.TheVariants.{Test as TestRole};
ghost use Rattle.cards.specs.Cards.{told, after};
ghost use Rattle.cards.specs.Contents.{read_words, written, wrote, buffer};
ghost use Rattle.cards.specs.Meaning.{Says, SaysPassing};
ghost use Rattle.cards.specs.Tests.{test_contents, test_system, test_passes};
ghost use Rattle.cards.specs.Holding.{held_lawful};

use crate::faults::{ShortBuffer, WordFault};
use crate::lines::*;
use crate::written_card::WrittenCard;
use crate::written_test::WrittenTest;
use lts::sets::StateSet;
use lts::system::{Lts, Test};
use std::alloc::{AllocError, Global};

// `new`, `read` and `write` are public calls of cards and of tests, each one call of what both share; one generic form would be no plainer: a trait of both would have to repeat these clauses.
impl WrittenTest {
    // A blank test: one state, no lines, and nothing passes. All its memory is set aside here.
    pub fn new(heap: Global) -> Result<WrittenTest, AllocError>
        ensures { IfOk result (λ t. test_contents t ≡ record { states = 1; start = 0; lines = []; passing = 0 }) }
    {
        let card = WrittenCard::new(heap)?;
        Ok(WrittenTest {
            card,
            passing: StateSet::empty(),
        })
    }

    // Reads the words of a test. A refusal leaves the test as it stood.
    pub fn read(&mut self, words: &[u32]) -> Result<(), WordFault>
        ensures told { result ≡ told (read_words TestRole words.now) }
        ensures after { test_contents self.new ≡ after (test_contents self.old) (read_words TestRole words.now) }
        ensures written { OnOk result (written (test_contents self.new) ≡ words.now) }
        ensures says { OnOk result (Says words.now (test_system self.new)) }
        ensures passing { OnOk result (SaysPassing words.now self.new.passing.bits) }
    {
        self.passing = self.card.read_as(Role::Test, words)?;
        Ok(())
    }

    // Writes the words of the test and returns how many they are; what lies beyond them stays, and so does a buffer that is too short.
    // Reading these words gives the same test.
    pub fn write(&self, out: &mut [u32]) -> Result<usize, ShortBuffer>
        ensures told { result ≡ wrote (written (test_contents self.now)) out.old }
        ensures after { out.new ≡ buffer (written (test_contents self.now)) out.old }
        ensures again { read_words TestRole (written (test_contents self.now)) ≡ Ok (test_contents self.now) }
        ensures few { length (written (test_contents self.now)) ≤ 322 }
    {
        self.card.write_as(self.passing, out)
    }
}

// Each question is handed on; one impl for all that hold a system would be no plainer: it needs a trait that hands out the system, with an impl for each holder.
impl Lts for WrittenTest {
    ghost meaning = { λ t. test_system t };

    ghost lawful = { λ t. held_lawful t.card };

    ghost small = { λ t. t.card.sized.1 };

    fn count(&self) -> usize {
        self.card.count()
    }

    fn start(&self) -> usize {
        self.card.start()
    }

    fn visible(&self, state: usize, action: usize) -> StateSet {
        self.card.visible(state, action)
    }

    fn hidden(&self, state: usize) -> StateSet {
        self.card.hidden(state)
    }
}

impl Test for WrittenTest {
    ghost passing = { λ t. test_passes t };

    #[tactic(auto, using(crate::proofs::Holding::passes_none))]
    fn passes(&self, state: usize) -> bool {
        self.passing.contains(state)
    }
}
