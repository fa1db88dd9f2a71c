// A layer of a pile.
ghost use Rattle.std.proofs.Common.{rules};
ghost use Rattle.layers.specs.Silencing.{hide_lawful};
ghost use Rattle.layers.specs.Composing.{parallel_lawful};
ghost use Rattle.piles.specs.declared.pile.Pile.TheVariants.{Below, Hidden, Composed};

use layers::hide::Hide;
use layers::parallel::Parallel;
use lts::sets::StateSet;
use lts::system::Lts;

// At most one layer over piles of a kind, or over systems. `Pile<Pile<P>>` has at most two, and so on.
#[derive(Drop)]
pub enum Pile<P> {
    Below(P),
    Hidden(Hide<P>),
    Composed(Parallel<P, P>),
}

impl<P: Lts> Lts for Pile<P> {
    ghost meaning = { elim [ Below p ↦ P.meaning p | Hidden h ↦ ⟦<Hide<P> as Lts>⟧.meaning h | Composed c ↦ ⟦<Parallel<P, P> as Lts>⟧.meaning c ] };

    ghost lawful = { elim [ Below p ↦ P.lawful p | Hidden h ↦ hide_lawful h.actions.bits (P.meaning h.inner) (P.lawful h.inner) | Composed c ↦ parallel_lawful c.shared.bits (P.meaning c.left) (P.meaning c.right) (P.lawful c.left) (P.lawful c.right) ] };

    ghost small = { elim [ Below p ↦ P.small p | Hidden h ↦ P.small h.inner | Composed c ↦ Prim.search rules ] };

    fn count(&self) -> usize {
        match self {
            Pile::Below(pile) => pile.count(),
            Pile::Hidden(pile) => pile.count(),
            Pile::Composed(pile) => pile.count(),
        }
    }

    fn start(&self) -> usize {
        match self {
            Pile::Below(pile) => pile.start(),
            Pile::Hidden(pile) => pile.start(),
            Pile::Composed(pile) => pile.start(),
        }
    }

    fn visible(&self, state: usize, action: usize) -> StateSet {
        match self {
            Pile::Below(pile) => pile.visible(state, action),
            Pile::Hidden(pile) => pile.visible(state, action),
            Pile::Composed(pile) => pile.visible(state, action),
        }
    }

    fn hidden(&self, state: usize) -> StateSet {
        match self {
            Pile::Below(pile) => pile.hidden(state),
            Pile::Hidden(pile) => pile.hidden(state),
            Pile::Composed(pile) => pile.hidden(state),
        }
    }
}
