// Where a trace leads, as text.
ghost use Rattle.std.specs.Prelude.{◌≡◌, ◌++◌, IfOk, Some, string_bytes};
ghost use Rattle.traces.specs.Offered.{bits_of};
ghost use Rattle.printing.specs.Trails.{numbers_text, trail_text, known_text, trace_text};

use crate::answers::yes_or_no;
use crate::cards_shown::fault_text;
use crate::numbers::write_numbers;
use cards::written_card::WrittenCard;
use lts::sets::ActionSet;
use lts::system::Lts;
use std::alloc::{AllocError, Global};
use std::fmt;
use traces::compile::compile_lent;
use traces::family::Family;
use traces::macrostate::Macrostate;

// The actions of a trace, each after a blank, or a dash where there are none.
#[derive(Drop)]
pub struct ActionsShown<'a>(pub &'a [u8]);

impl fmt::Display for ActionsShown<'_> {
    ghost output = { λ a. Some (numbers_text a.0.now) };

    fn fmt<W: fmt::Write>(&self, f: &mut fmt::Formatter<W>) -> fmt::Result {
        write_numbers(f, self.0.iter().map(|action| usize::from(*action)))
    }
}

// What is known after a trace: where it leads and, if that is convergent, the minimal acceptance sets.
#[derive(Drop)]
struct Known<'a> {
    trace: &'a [u8],
    at: Macrostate,
    accepts: &'a [ActionSet],
}

impl fmt::Display for Known<'_> {
    ghost output = { λ k. Some (trail_text k.trace.now k.at.states.bits k.at.convergent (bits_of k.accepts.now)) };

    fn fmt<W: fmt::Write>(&self, f: &mut fmt::Formatter<W>) -> fmt::Result {
        let trace = ActionsShown(self.trace);
        write!(f, "trace{trace}\nstates")?;
        write_numbers(f, self.at.states.members())?;
        let convergent = yes_or_no(self.at.convergent);
        write!(f, "\nconvergent {convergent}\n")?;
        for set in self.accepts {
            write!(f, "accepts")?;
            write_numbers(f, set.members())?;
            writeln!(f)?;
        }
        Ok(())
    }
}

// What is known of any kind of system after a trace: the states that it may be in and, where it is convergent, the minimal acceptance sets.
pub fn known_text<S: Lts>(heap: Global, system: &S, trace: &[u8]) -> Result<String, AllocError>
    ensures { IfOk result (λ s. string_bytes s ≡ known_text (S.meaning system.now) trace.now) }
{
    let compiled = compile_lent(system, heap)?;
    let at = compiled.after(trace);
    let mut family = Family::new(heap)?;
    compiled.acceptance_into(at, &mut family);
    let known = Known {
        trace,
        at,
        accepts: family.members(),
    };
    known.to_string(heap)
}

// The same of a card file, or what is wrong with it.
// Its match stands in `file_text` too: one function over a closure that shows the card would need a clause longer than both bodies.
pub fn trace_text(heap: Global, bytes: &[u8], trace: &[u8]) -> Result<String, AllocError>
    ensures { IfOk result (λ s. string_bytes s ≡ trace_text bytes.now trace.now) }
{
    let mut card = WrittenCard::new(heap)?;
    match card.read_bytes(bytes) {
        Ok(()) => known_text(heap, &card, trace),
        Err(fault) => fault_text(heap, fault),
    }
}
