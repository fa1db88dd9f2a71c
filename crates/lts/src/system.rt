// The interface of systems and of tests.
ghost use Rattle.std.specs.Prelude.{◌≡◌, ℕ, ◌≤◌, Bool, false};
ghost use Rattle.lts.specs.System.{System, Lawful};

use crate::sets::StateSet;

// A labelled transition system of 1 to 64 states, numbered from 0, with actions 0 to 31 and silent transitions. Planners call it a card.
pub trait Lts {
    ghost meaning: { Self → System };

    fn count(&self) -> usize
        ensures { result ≡ (meaning self.now).count };

    fn start(&self) -> usize
        ensures { result ≡ (meaning self.now).start };

    // The states that the action leads to from the state: none for what is no state or no action.
    fn visible(&self, state: usize, action: usize) -> StateSet
        ensures { result.bits ≡ (meaning self.now).visible state action };

    // The states that a silent transition leads to from the state: none for what is no state.
    fn hidden(&self, state: usize) -> StateSet
        ensures { result.bits ≡ (meaning self.now).hidden state };

    ghost lawful: { (x : Self) → Lawful (meaning x) };

    ghost small: { (x : Self) → (meaning x).count ≤ 64 };
}

// A system with one question more: whether a state passes. Planners call it an examiner.
pub trait Test: Lts {
    ghost passing: { Self → ℕ → Bool };

    // No number at or above the count passes.
    fn passes(&self, state: usize) -> bool
        ensures value { result ≡ passing self.now state }
        ensures within { (Self.Lts.meaning self.now).count ≤ state → result ≡ false };
}
