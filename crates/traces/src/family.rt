// Families of sets of actions in which no set contains another.
ghost use Rattle.std.specs.Prelude.{◌≡◌, ◌==◌, ℕ, ◌+◌, ◌<◌, ◌≤◌, Bool, true, ◌&&◌, ◌↔◌, [], ◌∷◌, ◌++◌, length, take, drop, IfOk, is_ok, if◌then◌else◌, vec_len, vec_capacity, nat_lt};
ghost use Rattle.traces.specs.Families.{covered as covered_by, all_covered, antichain, without, placed, offered};
ghost use Rattle.lts.specs.Sets.{Ascending};
ghost use Rattle.traces.specs.Offered.{bits_of, free, Incomparable, IsFamily};
ghost use Rattle.std.specs.List.{All, filter, position_or_len};
ghost use Rattle.std.specs.Cmp.Lexicographic.{pointwise};
ghost use Rattle.std.specs.Cmp.Rules.{comparing};
ghost use Rattle.std.proofs.Common.{rules};

use lts::sets::ActionSet;
use std::alloc::{AllocError, Global};
use std::marker::Model;

// At most 64 sets in rising order, none of which contains another. Room for all is set aside when the family is made, so that memory can be wanting
// then alone: `new` is a call of the outside interface and takes an allocator, which an array of fixed length would leave without use.
#[derive(Drop)]
pub struct Family {
    sets: Vec<ActionSet>,
}

// A family is seen as the list of its sets, which forgets the room: so `==`, which a derive could not read off it, stands below.
impl Model for Family {
    ghost use Rattle.std.specs.Prelude.{List, ℕ, vec_len, vec_capacity};
    ghost use Rattle.traces.specs.Offered.{bits_of, Kept};

    ghost Value = { List ℕ };

    ghost view = { λ f. bits_of f.sets.items };

    ghost invariant = { λ f. Kept f.sets.items (vec_len f.sets) (vec_capacity f.sets) };
}

impl PartialEq for Family {
    ghost eq = { pointwise ◌==◌ };

    ghost laws = { Prim.search (comparing, rules) };

    fn eq(&self, other: &Family) -> bool {
        self.same_as(other)
    }
}

impl Eq for Family {
    ghost laws = { Prim.search (comparing, rules) };
}

// A family of 64 members takes none.
#[derive(Clone, Copy, PartialEq, Eq, Debug)]
pub struct Full;

// Whether the offer contains one of the sets.
pub fn is_covered(offer: ActionSet, sets: &[ActionSet]) -> bool
    ensures { result ≡ covered_by offer.bits (bits_of sets.now) }
{
    sets.iter().any(|set| set.is_within(offer))
}

// Takes out the sets that contain the offer. Mostly there is none, and then nothing is moved.
fn leave_out(sets: &mut Vec<ActionSet>, offer: ActionSet)
    ensures items { sets.new.items ≡ filter (free offer.bits) sets.old.items }
    ensures len { vec_len sets.new ≤ vec_len sets.old }
    ensures capacity { vec_capacity sets.new ≡ vec_capacity sets.old }
{
    if sets.iter().any(|set| offer.is_within(*set)) {
        sets.retain(|set| !offer.is_within(*set));
    }
}

// Where the offer stands among sets in rising order. Families are small: looking from the front is faster than halving.
fn place_of(offer: ActionSet, sets: &[ActionSet]) -> usize
    ensures place { result ≡ position_or_len (λ s. nat_lt offer.bits s.bits) sets.now }
    ensures bound { result ≤ length sets.now }
{
    sets.iter()
        .position(|set| offer.bits() < set.bits())
        .unwrap_or(sets.len())
}

impl Family {
    pub fn new(heap: Global) -> Result<Family, AllocError>
        ensures { IfOk result (λ f. f ≡ []) }
    {
        let sets = Vec::with_capacity(heap, 64)?;
        Ok(Family { sets })
    }

    // The family with no set, its room kept.
    pub fn clear(&mut self)
        ensures { self.new ≡ [] }
    {
        self.sets.clear();
    }

    // Whether the offer is above all members, so that none contains it and its place is the end.
    fn ends_below(&self, offer: ActionSet) -> bool
        ensures { result ≡ true → All (λ y. y < offer.bits) self.now }
    {
        match self.sets.last() {
            Some(last) => last.bits() < offer.bits(),
            None => true,
        }
    }

    // Enters an offer: nothing changes if it contains a member, else the members that contain it leave. A family of 64 members takes none.
    pub fn insert(&mut self, offer: ActionSet) -> Result<(), Full>
        ensures room { is_ok result ≡ nat_lt (length self.old) 64 }
        ensures after { self.new ≡ (if is_ok result then offered offer.bits self.old else self.old) }
        ensures len { length self.new ≤ length self.old + 1 }
        ensures family { IsFamily self.new }
    {
        if self.sets.len() >= 64 {
            return Err(Full);
        }
        if !is_covered(offer, self.members()) {
            if self.ends_below(offer) {
                self.sets.push_reserved(offer);
            } else {
                leave_out(&mut self.sets, offer);
                let place = place_of(offer, self.sets.as_slice());
                let _ = self.sets.insert(place, offer);
            }
        }
        Ok(())
    }

    // The members in rising order.
    pub fn members(&self) -> &[ActionSet]
        ensures value { bits_of result.now ≡ self.now }
        ensures rising { Ascending (bits_of result.now) }
        ensures apart { Incomparable (bits_of result.now) }
        ensures few { length self.now ≤ 64 }
    {
        &self.sets
    }

    // Whether each member of either family contains a member of the other: since no member contains another, this is whether they have the same members.
    // `==` is the same; this name is a call of the outside interface, and promises the containments too.
    pub fn same_as(&self, other: &Family) -> bool
        ensures value { result ≡ (all_covered self.now other.now && all_covered other.now self.now) }
        ensures equal { result ≡ true ↔ self.now ≡ other.now }
    {
        self.sets == other.sets
    }
}
