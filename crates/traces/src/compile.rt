// Any system compiled: every question is asked once.
ghost use Rattle.std.specs.Prelude.{◌≡◌, ℕ, IfOk, MatchResult};
ghost use Rattle.traces.specs.Compiled.{system_of};
ghost use Rattle.traces.specs.TableLaws.{table_lawful};

use crate::compiled::Compiled;
use crate::tabulate::tabulate;
use lts::sets::StateSet;
use lts::system::Lts;
use std::alloc::{AllocError, Global};

// The compiled system means what the system means. Only memory can be wanting.
pub fn compile_lent<S: Lts>(system: &S, heap: Global) -> Result<Compiled, AllocError>
    ensures { IfOk result (λ c. system_of c ≡ S.meaning system.now) }
{
    let transitions = tabulate(system, heap)?;
    let derived = transitions.derived(heap)?;
    let stable = transitions.stable_states();
    let divergent = transitions.divergent_states();
    Ok(Compiled {
        transitions,
        derived,
        stable,
        divergent,
    })
}

// The same, taking the system; where memory is wanting it is handed back, since it may be one that cannot be copied. Both are calls of the outside interface.
pub fn compile<S: Lts + Drop>(system: S, heap: Global) -> Result<Compiled, S>
    ensures { MatchResult result (λ c. system_of c ≡ S.meaning system) (λ back. back ≡ system) }
{
    compile_lent(&system, heap).map_err(|_| system)
}

// Each question is handed on; one impl for all that hold a system would be no plainer: it needs a trait that hands out the system, with an impl for
// each holder.
impl Lts for Compiled {
    ghost meaning = { λ c. system_of c };

    ghost lawful = { λ x. table_lawful x.transitions };

    ghost small = { λ x. x.transitions.few };

    fn count(&self) -> usize {
        self.transitions.count()
    }

    fn start(&self) -> usize {
        self.transitions.start()
    }

    fn visible(&self, state: usize, action: usize) -> StateSet {
        self.transitions.visible(state, action)
    }

    fn hidden(&self, state: usize) -> StateSet {
        self.transitions.hidden(state)
    }
}
