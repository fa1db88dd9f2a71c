// Making, reading and asking written cards.
ghost use Rattle.std.specs.Prelude.{◌≡◌, ℕ, ◌≤◌, true, [], length, map, IfOk, Ok, Err, MatchResult, OnErr, OnOk};
ghost use Rattle.cards.specs.declared.lines.Role.TheVariants.{Card};
ghost use Rattle.cards.specs.Cards.{contents, contents_with, system, told, after};
ghost use Rattle.cards.specs.Contents.{read_words, written, wrote, buffer};
ghost use Rattle.cards.specs.Lines.{rising};
ghost use Rattle.cards.specs.Meaning.{Says};
ghost use Rattle.cards.specs.Words.{line_word};
ghost use Rattle.cards.specs.Holding.{held_lawful};

use crate::collecting::collect;
use crate::faults::{ShortBuffer, WordFault};
use crate::lines::*;
use crate::reading::check;
use crate::tables::Table;
use crate::written_card::WrittenCard;
use lts::sets::StateSet;
use lts::system::Lts;
use std::alloc::{AllocError, Global};

impl WrittenCard {
    // A blank card: one state and no lines. All its memory is set aside here.
    #[tactic(auto, unfolding(crate::specs::Lines::lines_fit, crate::specs::Lines::rising))]
    pub fn new(heap: Global) -> Result<WrittenCard, AllocError>
        ensures { IfOk result (λ c. contents c ≡ record { states = 1; start = 0; lines = []; passing = 0 }) }
    {
        let lines = Vec::with_capacity(heap, 256)?;
        let table = Table::new(heap)?;
        Ok(WrittenCard {
            states: 1,
            start: 0,
            lines,
            table,
        })
    }

    // The lines, in the order of their words.
    pub fn lines(&self) -> &[Line]
        ensures value { result.now ≡ (contents self.now).lines }
        ensures rising { rising 0 (map line_word result.now) ≡ true }
    {
        self.lines.as_slice()
    }

    // Fills the card from the words of a card or a test, and returns the passing states that they name.
    #[tactic(auto, unfolding(crate::specs::Contents::read_words))]
    pub(crate) fn read_as(&mut self, role: Role, words: &[u32]) -> Result<StateSet, WordFault>
        ensures taken { MatchResult result (λ p. read_words role words.now ≡ Ok (contents_with p.bits self.new)) (λ f. read_words role words.now ≡ Err f) }
        ensures kept { OnErr result (self.new ≡ self.old) }
    {
        let head = check(role, words)?;
        let passing = collect(&mut self.lines, words);
        self.table.fill(&self.lines);
        self.states = head.states;
        self.start = head.start;
        Ok(passing)
    }

    // Reads the words of a card. A refusal leaves the card as it stood.
    pub fn read(&mut self, words: &[u32]) -> Result<(), WordFault>
        ensures told { result ≡ told (read_words Card words.now) }
        ensures after { contents self.new ≡ after (contents self.old) (read_words Card words.now) }
        ensures written { OnOk result (written (contents self.new) ≡ words.now) }
        ensures says { OnOk result (Says words.now (system self.new)) }
    {
        self.read_as(Role::Card, words)?;
        Ok(())
    }

    // Writes the words of the card and returns how many they are; what lies beyond them stays, and so does a buffer that is too short.
    // Reading these words gives the same card.
    pub fn write(&self, out: &mut [u32]) -> Result<usize, ShortBuffer>
        ensures told { result ≡ wrote (written (contents self.now)) out.old }
        ensures after { out.new ≡ buffer (written (contents self.now)) out.old }
        ensures again { read_words Card (written (contents self.now)) ≡ Ok (contents self.now) }
        ensures few { length (written (contents self.now)) ≤ 258 }
    {
        self.write_as(StateSet::empty(), out)
    }
}

impl Lts for WrittenCard {
    ghost meaning = { λ c. system c };

    ghost lawful = { λ c. held_lawful c };

    ghost small = { λ c. c.sized.1 };

    fn count(&self) -> usize {
        self.states
    }

    fn start(&self) -> usize {
        self.start
    }

    fn visible(&self, state: usize, action: usize) -> StateSet {
        if action < 32 {
            self.table.targets(state, action)
        } else {
            StateSet::empty()
        }
    }

    fn hidden(&self, state: usize) -> StateSet {
        self.table.targets(state, 32)
    }
}
