// Two counters in a row beside one of both their capacities, as text.
ghost use Rattle.std.specs.Prelude.{◌≡◌, ◌+◌, ◌≤◌, ◌<◌, ◌^◌, IfOk, MatchResult, codes, decimal, string_bytes};
ghost use Rattle.layers.specs.Counter.{counter as counter_of};
ghost use Rattle.alike_c.specs.Counters.{counters_text, first_counter, second_counter, refused_text, Made};

use layers::counter::{Counter, CounterFault};
use layers::hide::Hide;
use layers::parallel::{Parallel, fit};
use lts::sets::ActionSet;
use reports::lines::systems_line;
use std::alloc::{AllocError, Global};

// The first counts up by action 0 and down by 1, the second up by 1 and down by 2. The third holds as many as both: up by 0 and down by 2.
#[derive(Clone, Copy)]
struct Counters {
    first: Counter,
    second: Counter,
    both: Counter,
}

impl Counters {
    // Refused where the capacities come to more than 63.
    fn new(first: usize, second: usize) -> Result<Counters, CounterFault>
        requires { (first < 2 ^ 32) × (second < 2 ^ 32) }
        ensures { MatchResult result (λ c. (first + second ≤ 63) × Made first second c) (λ _. 63 < first + second) }
    {
        Ok(Counters {
            first: Counter::new(first, 0, 1)?,
            second: Counter::new(second, 1, 2)?,
            both: Counter::new(first + second, 0, 2)?,
        })
    }
}

fn refused_text(heap: Global, number: u8) -> Result<String, AllocError>
    ensures { IfOk result (λ s. string_bytes s ≡ refused_text number) }
{
    format!(in heap; "REFUSED {number}\n")
}

// The line of the first two in a row, where the action that hands over is hidden, beside the third; or the number of a refusal.
pub(crate) fn counters_text(heap: Global, first: u32, second: u32) -> Result<String, AllocError>
    ensures { IfOk result (λ s. string_bytes s ≡ counters_text first second) }
{
    let counters = match Counters::new(first as usize, second as usize) {
        Ok(counters) => counters,
        Err(fault) => return refused_text(heap, fault.number()),
    };
    if let Err(fault) = fit(&counters.first, &counters.second) {
        return refused_text(heap, fault.number());
    }
    let between = ActionSet::from_bits(2);
    let in_a_row = Hide::new(
        Parallel::new(counters.first, counters.second, between),
        between,
    );
    systems_line(heap, in_a_row, counters.both)
}
