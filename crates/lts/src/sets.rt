// Sets of states and of actions, each one machine word.
ghost use Rattle.std.specs.Prelude.{◌≡◌, ℕ, ◌^◌, ◌<◌, ◌≤◌, Bool, not, length, ◌==◌, ◌⊎◌, ◌↔◌, true};
ghost use Rattle.lts.specs.Sets.{In, Subset, Exactly, has, union as union_of, intersection as intersection_of, complement as complement_of, within, inserted, Lists, members as members_of};

use crate::members::Members;
use crate::word::Word;
use std::fmt;

// A set of numbers below the width of a word; bit k stands for the number k. Clauses name its bits. A model that shows the number alone would lose that it
// has room in the word, and the derived equality would want a way back from numbers to words.
#[derive(Clone, Copy, PartialEq, Eq, Hash)]
pub struct Set<W> {
    bits: W,
}

// A set of states 0 to 63.
pub type StateSet = Set<u64>;

// A set of actions 0 to 31.
pub type ActionSet = Set<u32>;

// Sets of states and of actions show themselves under these names: the generic one would not tell them apart.
impl<W: Word> fmt::Debug for Set<W> {
    fn fmt<F: fmt::Write>(&self, f: &mut fmt::Formatter<F>) -> fmt::Result {
        let name = match W::WIDTH {
            64 => "StateSet",
            32 => "ActionSet",
            _ => "Set",
        };
        f.debug_struct(name)
            .field("bits", &self.bits.widened())
            .finish()
    }
}

impl<W: Word> Set<W> {
    pub fn empty() -> Set<W>
        ensures { W.number result.bits ≡ 0 }
    {
        Set {
            bits: W::truncated(0),
        }
    }

    pub fn from_bits(bits: W) -> Set<W>
        ensures { result.bits ≡ bits }
    {
        Set { bits }
    }

    pub fn bits(self) -> W
        ensures { result ≡ self.bits }
    {
        self.bits
    }

    pub fn is_empty(self) -> bool
        ensures { result ≡ (W.number self.bits == 0) }
    {
        self.bits.widened() == 0
    }

    // How many members it has.
    pub fn len(self) -> usize
        ensures value { result ≡ length (members_of (W.number self.bits)) }
        ensures bound { result ≤ W.WIDTH }
    {
        self.bits.widened().count_ones() as usize
    }

    // No number from the width on is a member.
    pub fn contains(self, number: usize) -> bool
        ensures { result ≡ has number (W.number self.bits) }
    {
        let bits = self.bits.widened();
        number < W::WIDTH && bits >> number & 1 == 1
    }

    pub fn union(self, other: Set<W>) -> Set<W>
        ensures value { W.number result.bits ≡ union_of (W.number self.bits) (W.number other.bits) }
        ensures members { Exactly (λ q. In q (W.number self.bits) ⊎ In q (W.number other.bits)) (W.number result.bits) }
    {
        Set {
            bits: W::truncated(self.bits.widened() | other.bits.widened()),
        }
    }

    pub fn intersection(self, other: Set<W>) -> Set<W>
        ensures value { W.number result.bits ≡ intersection_of (W.number self.bits) (W.number other.bits) }
        ensures members { Exactly (λ q. In q (W.number self.bits) × In q (W.number other.bits)) (W.number result.bits) }
    {
        Set {
            bits: W::truncated(self.bits.widened() & other.bits.widened()),
        }
    }

    // The numbers below the width that are no members.
    pub fn complement(self) -> Set<W>
        ensures value { W.number result.bits ≡ complement_of W.WIDTH (W.number self.bits) }
        ensures members { Exactly (λ q. (q < W.WIDTH) × (¬ In q (W.number self.bits))) (W.number result.bits) }
    {
        Set {
            bits: W::truncated(W::ALL - self.bits.widened()),
        }
    }

    // Whether every member is one of the other set.
    pub fn is_within(self, other: Set<W>) -> bool
        ensures value { result ≡ within (W.number self.bits) (W.number other.bits) }
        ensures members { result ≡ true ↔ Subset (W.number self.bits) (W.number other.bits) }
    {
        let bits = self.bits.widened();
        bits & other.bits.widened() == bits
    }

    // The set with one number more; one from the width on leaves it as it is. Tells whether the set has grown.
    pub fn insert(&mut self, number: usize) -> bool
        ensures after { W.number self.new.bits ≡ inserted W.WIDTH number (W.number self.old.bits) }
        ensures members { Exactly (λ q. In q (W.number self.old.bits) ⊎ ((q ≡ number) × (q < W.WIDTH))) (W.number self.new.bits) }
        ensures grown { result ≡ not (W.number self.new.bits == W.number self.old.bits) }
    {
        let before = self.bits.widened();
        if number >= W::WIDTH {
            return false;
        }
        let after = before | 1 << number;
        self.bits = W::truncated(after);
        after != before
    }

    // The members, in rising order.
    pub fn members(self) -> Members
        ensures value { result.rest ≡ W.number self.bits }
        ensures below { result.rest < 2 ^ W.WIDTH }
        ensures listed { Lists (W.number self.bits) (members_of result.rest) }
    {
        Members::of(self.bits.widened())
    }
}
