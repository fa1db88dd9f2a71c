// How a trace splits two systems, told from what it shows of each.
ghost use Rattle.std.specs.Prelude.{◌≡◌, not, is_some, option_map};
ghost use Rattle.traces.specs.Offered.{bits_of};
ghost use Rattle.testing.specs.Rule.{first_bare, offer_split, offer_rule};
ghost use Rattle.testing.specs.Judging.{split_on, told};
ghost use Rattle.testing.specs.Laws.{SplitLaws, AgreeLaws};

use crate::ground::{Ground, Shown, Side, Split};
use lts::sets::ActionSet;
use traces::family::is_covered;

// The first set of the list that contains none of the rivals.
fn first_bare(sets: &[ActionSet], rivals: &[ActionSet]) -> Option<ActionSet>
    ensures { option_map (λ s. s.bits) result ≡ first_bare (bits_of sets.now) (bits_of rivals.now) }
{
    sets.iter().copied().find(|set| !is_covered(*set, rivals))
}

// The split by a set that one side has: the other side passes, and the offer is all actions outside the set.
fn offer_of(set: ActionSet, passer: Side) -> Split
    ensures { result ≡ offer_split set.bits passer }
{
    Split {
        ground: Ground::Offer(set.complement()),
        passer,
    }
}

// The split by the lowest set on the left that contains none on the right or, failing that, by the lowest on the right that contains none on the left.
fn by_offer(left: &[ActionSet], right: &[ActionSet]) -> Option<Split>
    ensures { result ≡ offer_rule (bits_of left.now) (bits_of right.now) }
{
    first_bare(left, right)
        .map(|set| offer_of(set, Side::Right))
        .or_else(|| first_bare(right, left).map(|set| offer_of(set, Side::Left)))
}

fn on(ground: Ground, passer: Side) -> Option<Split>
    ensures { result ≡ split_on ground passer }
{
    Some(Split { ground, passer })
}

// How a trace splits two systems, from what it shows of each: the first ground on which it does, and the passer; none if it does not.
#[tactic(auto, using(crate::proofs::Carried::split_laws))]
pub fn split(left: Shown<'_>, right: Shown<'_>) -> Option<Split>
    ensures value { result ≡ told left.entry right.entry }
    ensures laws { SplitLaws }
{
    match (left, right) {
        (Shown::Offers(left), Shown::Offers(right)) => by_offer(left, right),
        (Shown::Unable, Shown::Unable) | (Shown::Divergent, Shown::Divergent) => None,
        (_, Shown::Unable) => on(Ground::Reach, Side::Left),
        (Shown::Unable, _) => on(Ground::Reach, Side::Right),
        (Shown::Offers(_), Shown::Divergent) => on(Ground::Settle, Side::Left),
        (Shown::Divergent, Shown::Offers(_)) => on(Ground::Settle, Side::Right),
    }
}

// Whether a trace shows the same of both systems, so that it does not split them. If every trace does, every test passes with both or with neither.
#[tactic(auto, using(crate::proofs::Carried::agree_laws))]
pub fn agree(left: Shown<'_>, right: Shown<'_>) -> bool
    ensures value { result ≡ not (is_some (told left.entry right.entry)) }
    ensures laws { AgreeLaws }
{
    split(left, right).is_none()
}
