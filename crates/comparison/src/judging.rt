// What a pair comes to, told from what its macrostates show of the two systems.
ghost use Rattle.std.specs.Prelude.{◌≡◌};
ghost use Rattle.traces.specs.Compiled.{system_of};
ghost use Rattle.traces.specs.Shown.{shown as macrostate_of};
ghost use Rattle.comparison.specs.Showing.{ShownIn};

use crate::pair::Pair;
use testing::ground::{Shown, Split};
use traces::compiled::Compiled;
use traces::family::Family;
use traces::macrostate::Macrostate;

// Skipped: neither system can do the trace. Splits: it splits the two. Meets: it does not, and leads to this pair.
#[derive(Clone, Copy)]
pub(crate) enum Outcome {
    Skipped,
    Splits(Split),
    Meets(Pair),
}

// What a macrostate shows of the system. Its minimal sets are worked out in the family that is lent, so that no memory is wanted.
pub(crate) fn shown<'a>(
    system: &Compiled,
    macrostate: Macrostate,
    sets: &'a mut Family,
) -> Shown<'a>
    ensures { ShownIn (system_of system.now) (macrostate_of macrostate) result }
{
    if macrostate.states.is_empty() {
        Shown::Unable
    } else if system.acceptance_into(macrostate, sets) {
        Shown::Offers(sets.members())
    } else {
        Shown::Divergent
    }
}
