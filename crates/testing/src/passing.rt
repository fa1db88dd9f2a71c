// How distinguishing tests are passed, and what passing one says of a system.
ghost use Rattle.std.specs.Prelude.{◌≡◌};
ghost use Rattle.testing.specs.Distinguish.{by_must};
ghost use Rattle.testing.specs.Laws.{TestLaws};

use crate::ground::Ground;

impl Ground {
    // Whether the distinguishing test of the ground must pass with a system, and not only may: for Reach it may, for the others it must.
    #[tactic(auto, using(crate::proofs::Carried::test_laws))]
    pub fn is_must(self) -> bool
        ensures value { result ≡ by_must self }
        ensures laws { TestLaws }
    {
        match self {
            Ground::Reach => false,
            Ground::Settle | Ground::Offer(_) => true,
        }
    }
}
