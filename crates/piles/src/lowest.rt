// What a pile of layers stands on.
ghost use Rattle.std.proofs.Common.{arith};
ghost use Rattle.layers.specs.Counters.{counter_lawful};
ghost use Rattle.cards.specs.Holding.{held_lawful};
ghost use Rattle.piles.specs.declared.lowest.Lowest.TheVariants.{Counter, Card};

use cards::written_card::WrittenCard;
use layers::counter::Counter;
use lts::sets::StateSet;
use lts::system::Lts;

// A system without a layer below it.
#[derive(Drop)]
pub enum Lowest {
    Counter(Counter),
    Card(WrittenCard),
}

impl Lts for Lowest {
    ghost meaning = { elim [ Counter k ↦ ⟦<Counter as Lts>⟧.meaning k | Card c ↦ ⟦<WrittenCard as Lts>⟧.meaning c ] };

    ghost lawful = { elim [ Counter k ↦ counter_lawful k.capacity k.input k.output k.within.1 k.within.2 | Card c ↦ held_lawful c ] };

    ghost small = { elim [ Counter k ↦ Prim.omega (arith, k.within.0) | Card c ↦ c.sized.1 ] };

    fn count(&self) -> usize {
        match self {
            Lowest::Counter(counter) => counter.count(),
            Lowest::Card(card) => card.count(),
        }
    }

    fn start(&self) -> usize {
        match self {
            Lowest::Counter(counter) => counter.start(),
            Lowest::Card(card) => card.start(),
        }
    }

    fn visible(&self, state: usize, action: usize) -> StateSet {
        match self {
            Lowest::Counter(counter) => counter.visible(state, action),
            Lowest::Card(card) => card.visible(state, action),
        }
    }

    fn hidden(&self, state: usize) -> StateSet {
        match self {
            Lowest::Counter(counter) => counter.hidden(state),
            Lowest::Card(card) => card.hidden(state),
        }
    }
}
