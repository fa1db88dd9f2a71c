// The distinguishing test of a ground and a trace.
ghost use Rattle.std.specs.Prelude.{◌≡◌, ◌≤◌, length, [], OnOk, IfOk, true, ◌↔◌};

use crate::experiment::{ExperimentFault, experiment};
use crate::ground::Ground;
use arrayvec::ArrayVec;
use lts::sets::{ActionSet, StateSet};
use lts::system::{Lts, Test};
use std::alloc::Global;
use thiserror::Error;

// The most actions of a trace: the test has two states more than that, and a system has at most 64.
const MOST_ACTIONS: usize = 62;

// For a trace of n actions it has the states 0 to n + 1, starts at 0 and passes at n + 1 alone; the actions lead from each state up to n to the next.
// Reach adds a silent step from n to n + 1, Settle one from every state up to n, and Offer one from every state below n, while each action of its set
// leads from n to n + 1. The trace stands in the value itself, so that filling wants no memory.
#[derive(Drop)]
pub struct DistinguishingTest {
    ground: Ground,
    trace: ArrayVec<u8, MOST_ACTIONS>,
    ghost fits: { length trace.items ≤ 62 },
}

// Why a trace is refused.
#[derive(Clone, Copy, PartialEq, Eq, Debug, Error)]
pub enum TraceFault {
    #[error("the trace has more than 62 actions")]
    TooLong = 12,
}

impl TraceFault {
    ghost use Rattle.testing.specs.Filling.{number as number_of};

    // The number under which the refusal is told.
    pub fn number(self) -> u8
        ensures { result ≡ number_of self }
    {
        self as u8
    }
}

impl DistinguishingTest {
    ghost use Rattle.testing.specs.declared.ground.Ground.TheVariants.{Settle};
    ghost use Rattle.testing.specs.Distinguish.{test_of, Passes};
    ghost use Rattle.testing.specs.Experiments.{TellsPassing};
    ghost use Rattle.testing.specs.Filling.{held, test_meant, filled, after, offer_of, leads_on, silent};

    // That of Settle on the empty trace.
    pub fn new() -> DistinguishingTest
        ensures { held result ≡ (Settle, []) }
    {
        DistinguishingTest {
            ground: Ground::Settle,
            trace: ArrayVec::new(),
        }
    }

    // Makes it the test of this ground and this trace. A trace of more than 62 actions is refused, and leaves it as it stood.
    pub fn fill(&mut self, ground: Ground, trace: &[u8]) -> Result<(), TraceFault>
        ensures told { result ≡ filled trace.now }
        ensures after { held self.new ≡ after (held self.old) ground trace.now }
        ensures test { OnOk result (test_meant self.new ≡ test_of ground trace.now) }
    {
        let Ok(trace) = ArrayVec::try_from(trace) else {
            return Err(TraceFault::TooLong);
        };
        *self = DistinguishingTest { ground, trace };
        Ok(())
    }

    // Whether the system passes it: by may for Reach, by must for Settle and Offer. A long trace beside a system of many states may have too many
    // joint pairs.
    pub fn is_passed_by<S: Lts>(&self, system: &S, heap: Global) -> Result<bool, ExperimentFault>
        ensures value { TellsPassing self.now.ground (S.meaning system.now) (test_meant self.now) result }
        ensures law { IfOk result (λ b. b ≡ true ↔ Passes self.now.ground (S.meaning system.now) (test_meant self.now)) }
    {
        let outcome = experiment(system, self, heap)?;
        if self.ground.is_must() {
            Ok(outcome.must)
        } else {
            Ok(outcome.may)
        }
    }

    // The actions that lead from the last state but one to the last.
    fn last_actions(&self) -> ActionSet
        ensures { result.bits ≡ offer_of self.now.ground }
    {
        match self.ground {
            Ground::Reach | Ground::Settle => ActionSet::empty(),
            Ground::Offer(actions) => actions,
        }
    }

    // Whether the action leads from the state to the next. What is no action leads nowhere, also where it stands in the trace.
    fn leads(&self, state: usize, action: usize) -> bool
        ensures { result ≡ leads_on self.now.ground self.now.trace.items state action }
    {
        if action >= 32 {
            return false;
        }
        match self.trace.as_slice().get(state) {
            Some(next) => usize::from(*next) == action,
            None => state == self.trace.len() && self.last_actions().contains(action),
        }
    }

    // Whether a silent transition leads from the state to the last.
    fn is_silent(&self, state: usize) -> bool
        ensures { result ≡ silent self.now.ground (length self.now.trace.items) state }
    {
        let end = self.trace.len();
        match self.ground {
            Ground::Reach => state == end,
            Ground::Settle => state <= end,
            Ground::Offer(_) => state < end,
        }
    }
}

impl Lts for DistinguishingTest {
    ghost use Rattle.testing.specs.Filling.{test_meant};
    ghost use Rattle.testing.specs.TestsLawful.{test_lawful, test_small};

    ghost meaning = { λ t. (test_meant t).system };

    ghost lawful = { λ t. (test_lawful t.ground t.trace.items).lawful };

    ghost small = { λ t. test_small t.ground t.trace.items t.fits };

    #[tactic(auto, using(crate::specs::TestsLawful::test_count))]
    fn count(&self) -> usize {
        self.trace.len() + 2
    }

    #[tactic(auto, using(crate::proofs::Rungs::start_is))]
    fn start(&self) -> usize {
        0
    }

    #[tactic(auto, using(crate::proofs::Rungs::visible_is, crate::proofs::Rungs::leads_within))]
    fn visible(&self, state: usize, action: usize) -> StateSet {
        if self.leads(state, action) {
            StateSet::from_bits(1 << (state + 1))
        } else {
            StateSet::empty()
        }
    }

    #[tactic(auto, using(crate::proofs::Rungs::hidden_is))]
    fn hidden(&self, state: usize) -> StateSet {
        if self.is_silent(state) {
            StateSet::from_bits(1 << (self.trace.len() + 1))
        } else {
            StateSet::empty()
        }
    }
}

impl Test for DistinguishingTest {
    ghost use Rattle.testing.specs.Filling.{test_meant};

    ghost passing = { λ t. (test_meant t).passes };

    #[tactic(auto, using(crate::specs::TestsLawful::test_count, crate::proofs::Rungs::passes_is))]
    fn passes(&self, state: usize) -> bool {
        state == self.trace.len() + 1
    }
}
