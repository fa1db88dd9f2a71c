// Hiding, a layer over any system.
ghost use Rattle.std.specs.Prelude.{◌≡◌};
ghost use Rattle.layers.specs.Hiding.{hide as hide_of, Hides};
ghost use Rattle.layers.specs.Silencing.{hide_lawful};
ghost use Rattle.std.proofs.Common.{rules};

use lts::sets::{ActionSet, StateSet};
use lts::system::Lts;

// A system in which the given actions are silent.
#[derive(Drop)]
pub struct Hide<C> {
    inner: C,
    actions: ActionSet,
}

impl<C: Lts> Hide<C> {
    pub fn new(inner: C, actions: ActionSet) -> Hide<C>
        ensures inner { result.inner ≡ inner }
        ensures actions { result.actions ≡ actions }
        ensures hides { Hides actions.bits (C.Lts.meaning inner) (hide_of result.actions.bits (C.Lts.meaning result.inner)) }
    {
        Hide { inner, actions }
    }
}

impl<C: Lts> Lts for Hide<C> {
    ghost meaning = { λ h. hide_of h.actions.bits (C.Lts.meaning h.inner) };

    ghost lawful = { λ x. hide_lawful x.actions.bits (C.Lts.meaning x.inner) (C.Lts.lawful x.inner) };

    ghost small = { Prim.search rules };

    fn count(&self) -> usize {
        self.inner.count()
    }

    fn start(&self) -> usize {
        self.inner.start()
    }

    fn visible(&self, state: usize, action: usize) -> StateSet {
        if self.actions.contains(action) {
            StateSet::empty()
        } else {
            self.inner.visible(state, action)
        }
    }

    // A union gathered in a loop of its own, for the reason told at `together` of a composition.
    fn hidden(&self, state: usize) -> StateSet {
        let mut states = self.inner.hidden(state);
        for action in self.actions.members() {
            states = states.union(self.inner.visible(state, action));
        }
        states
    }
}
