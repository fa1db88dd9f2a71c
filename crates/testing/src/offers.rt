// What the states of a system offer.
ghost use Rattle.std.specs.Prelude.{◌≡◌};
ghost use Rattle.traces.specs.Transitions.{table_of};
ghost use Rattle.testing.specs.JointPairs.{offers_of};

use lts::sets::ActionSet;
use std::array;
use traces::transitions::Transitions;

// The offers of the numbers below 64: no system has more states.
pub(crate) fn offers(system: &Transitions) -> [ActionSet; 64]
    ensures { result ≡ offers_of (table_of system.now) }
{
    array::from_fn(|state| system.offer(state))
}
