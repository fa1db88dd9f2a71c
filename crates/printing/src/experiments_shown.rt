// A card beside a test, as text.
ghost use Rattle.std.specs.Prelude.{◌≡◌, IfOk, Some, string_bytes};
ghost use Rattle.testing.specs.Experiments.{tester};
ghost use Rattle.printing.specs.Experiments.{told_text, outcome_text, Tells, experiment_text, FilesTell};

use crate::answers::yes_or_no;
use cards::written_card::WrittenCard;
use cards::written_test::WrittenTest;
use lts::system::{Lts, Test};
use std::alloc::{AllocError, Global};
use std::fmt;
use testing::experiment::{Outcome, experiment};

// An outcome: may and must, a line each.
#[derive(Drop)]
struct OutcomeShown(Outcome);

impl fmt::Display for OutcomeShown {
    ghost output = { λ s. Some (told_text s.0) };

    fn fmt<W: fmt::Write>(&self, f: &mut fmt::Formatter<W>) -> fmt::Result {
        let may = yes_or_no(self.0.may);
        let must = yes_or_no(self.0.must);
        writeln!(f, "may {may}\nmust {must}")
    }
}

// What joint runs of any kind of system and any kind of test say, or why that is not worked out.
pub fn outcome_text<S: Lts, T: Test>(
    heap: Global,
    system: &S,
    test: &T,
) -> Result<String, AllocError>
    ensures text { let e = tester (T.Lts.meaning test.now) (T.passing test.now) in IfOk result (λ s. string_bytes s ≡ outcome_text (S.meaning system.now) e) }
    ensures law { let e = tester (T.Lts.meaning test.now) (T.passing test.now) in IfOk result (λ s. Tells (S.meaning system.now) e (string_bytes s)) }
{
    match experiment(system, test, heap) {
        Ok(outcome) => OutcomeShown(outcome).to_string(heap),
        Err(refusal) => match refusal.number() {
            Some(number) => format!(in heap; "REFUSED {number}\n"),
            None => Err(AllocError),
        },
    }
}

// The same of a card file and a test file, or what is wrong with the first of them that is not good.
pub fn experiment_text(heap: Global, card: &[u8], test: &[u8]) -> Result<String, AllocError>
    ensures text { IfOk result (λ s. string_bytes s ≡ experiment_text card.now test.now) }
    ensures law { IfOk result (λ s. FilesTell card.now test.now (string_bytes s)) }
{
    let mut system = WrittenCard::new(heap)?;
    if let Err(fault) = system.read_bytes(card) {
        return format!(in heap; "CARD {fault}\n");
    }
    let mut examiner = WrittenTest::new(heap)?;
    if let Err(fault) = examiner.read_bytes(test) {
        return format!(in heap; "TEST {fault}\n");
    }
    outcome_text(heap, &system, &examiner)
}
