// A bounded counter.
ghost use Rattle.std.specs.Prelude.{◌≡◌, ◌≤◌, IfOk, Ok, Err};
ghost use Rattle.layers.specs.Counter.{counter as counter_of, Counts, made, number as number_of};
ghost use Rattle.layers.specs.Counters.{counter_lawful};
ghost use Rattle.std.proofs.Common.{arith};

use lts::sets::StateSet;
use lts::system::Lts;
use thiserror::Error;

// Counts from 0 up to its capacity: one action counts up, one counts down. Planners call it a cage.
#[derive(Clone, Copy)]
pub struct Counter {
    capacity: usize,
    input: usize,
    output: usize,
    ghost within: { (capacity ≤ 63) × (input ≤ 31) × (output ≤ 31) },
}

// Why a counter is refused.
#[derive(Clone, Copy, PartialEq, Eq, Debug, Error)]
pub enum CounterFault {
    #[error("the capacity is above 63")]
    Capacity,
    #[error("an action is above 31")]
    Action,
}

impl CounterFault {
    // The number under which the refusal is told: one for both, so no discriminant can say it.
    pub fn number(self) -> u8
        ensures { result ≡ number_of self }
    {
        match self {
            CounterFault::Capacity => 3,
            CounterFault::Action => 3,
        }
    }
}

impl Counter {
    pub fn new(capacity: usize, input: usize, output: usize) -> Result<Counter, CounterFault>
        ensures value { elim result [ Ok k ↦ Ok (k.capacity, k.input, k.output) | Err e ↦ Err e ] ≡ made capacity input output }
        ensures counts { IfOk result (λ k. Counts capacity input output (counter_of k.capacity k.input k.output)) }
    {
        if capacity > 63 {
            return Err(CounterFault::Capacity);
        }
        if input > 31 || output > 31 {
            return Err(CounterFault::Action);
        }
        Ok(Counter {
            capacity,
            input,
            output,
        })
    }
}

impl Lts for Counter {
    ghost meaning = { λ k. counter_of k.capacity k.input k.output };

    ghost lawful = { λ x. counter_lawful x.capacity x.input x.output x.within.1 x.within.2 };

    ghost small = { λ x. Prim.omega (arith, x.within.0) };

    fn count(&self) -> usize {
        self.capacity + 1
    }

    fn start(&self) -> usize {
        0
    }

    fn visible(&self, state: usize, action: usize) -> StateSet {
        let mut states = StateSet::empty();
        if action == self.input && state < self.capacity {
            states.insert(state + 1);
        }
        if action == self.output && state <= self.capacity && state > 0 {
            states.insert(state - 1);
        }
        states
    }

    fn hidden(&self, _state: usize) -> StateSet {
        StateSet::empty()
    }
}
