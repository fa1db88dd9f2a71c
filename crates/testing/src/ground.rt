// Why a trace splits two systems, and which of the two passes its distinguishing test.
ghost use Rattle.std.specs.Prelude.{◌≡◌};
ghost use Rattle.testing.specs.Judging.{shown_as, ToldAs};

use lts::sets::ActionSet;

// One of the two systems of a comparison.
#[derive(Clone, Copy, PartialEq, Eq, Debug)]
pub enum Side {
    Left,
    Right,
}

// What holds of one system after a trace and not of the other. Reach: it can do the trace. Settle: it is convergent along it.
// Offer: each stable state after it has an action of the set, which is what the distinguishing test tries last.
#[derive(Clone, Copy, PartialEq, Eq, Debug)]
pub enum Ground {
    Reach,
    Settle,
    Offer(ActionSet),
}

// A ground on which a trace splits two systems, and the system that passes the distinguishing test.
#[derive(Clone, Copy, PartialEq, Eq, Debug)]
pub struct Split {
    pub ground: Ground,
    pub passer: Side,
}

// What a trace shows of one system. Unable: it cannot do the trace. Divergent: it can, and is not convergent along it.
// Offers: it can and is convergent along it, and these are its minimal acceptance sets after it, in rising order.
#[derive(Clone, Copy)]
pub enum Shown<'a> {
    Unable,
    Divergent,
    Offers(&'a [ActionSet]),
}

impl<'a> Shown<'a> {
    // What is shown where the system can do the trace or not, is convergent along it or not, and has these minimal acceptance sets after it. What a trace
    // shows of one that cannot do it is no more than that, whatever else is said, and of one that is divergent nothing of its sets.
    #[tactic(auto, using(crate::proofs::Judged::told_as))]
    pub fn of(does: bool, convergent: bool, minimal: &'a [ActionSet]) -> Shown<'a>
        ensures value { result ≡ shown_as does convergent minimal.entry }
        ensures told { ToldAs }
    {
        match (does, convergent) {
            (false, _) => Shown::Unable,
            (true, false) => Shown::Divergent,
            (true, true) => Shown::Offers(minimal),
        }
    }
}
