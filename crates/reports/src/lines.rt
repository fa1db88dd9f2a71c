// The line that is printed of a comparison, or of two card files.
ghost use Rattle.std.specs.Prelude.{◌≡◌, ◌++◌, IfOk, Ok, Err, Some, codes, string_bytes};
ghost use Rattle.comparison.specs.Replies.{answer_of};
ghost use Rattle.comparison.specs.Compared.{state_of};
ghost use Rattle.printing.specs.Shown.{newline};
ghost use Rattle.testing.specs.Filling.{offer_of};
ghost use Rattle.reports.specs.Told.{told_in, compared};
ghost use Rattle.reports.specs.Printed.{side_text, name_of, answer_text, place_text, line, files_line};
ghost use Rattle.reports.specs.Promised.{SystemsRight, LineRight};

use cards::faults::{SideFault, WordFault};
use cards::sides::read_sides;
use cards::written_card::WrittenCard;
use comparison::answer::{Answer, Progress};
use comparison::comparison::Comparison;
use comparison::laws::comparison_law;
use lts::system::Lts;
use printing::traces_shown::ActionsShown;
use std::alloc::{AllocError, Global};
use std::fmt;
use testing::ground::{Ground, Side};

fn side_name(side: Side) -> &'static str
    ensures { result.now ≡ side_text side }
{
    match side {
        Side::Left => "LEFT",
        Side::Right => "RIGHT",
    }
}

fn ground_name(ground: Ground) -> &'static str
    ensures { result.now ≡ name_of ground }
{
    match ground {
        Ground::Reach => "REACH",
        Ground::Settle => "SETTLE",
        Ground::Offer(_) => "OFFER",
    }
}

// The offer of a ground as a word, 0 where it has none.
pub fn offer_word(ground: Ground) -> u32
    ensures { result ≡ offer_of ground }
{
    match ground {
        Ground::Offer(offer) => offer.bits(),
        Ground::Reach | Ground::Settle => 0,
    }
}

// What a comparison tells, with the trace that splits the two systems where the answer is APART.
#[derive(Drop)]
struct AnswerShown<'a> {
    progress: Progress,
    trace: &'a [u8],
}

impl fmt::Display for AnswerShown<'_> {
    ghost output = { λ a. Some (answer_text (answer_of a.progress.answer) a.progress.rows a.trace.now) };

    fn fmt<W: fmt::Write>(&self, f: &mut fmt::Formatter<W>) -> fmt::Result {
        let rows = self.progress.rows;
        let trace = ActionsShown(self.trace);
        match self.progress.answer {
            Answer::Open => write!(f, "OPEN rows {rows}"),
            Answer::Alike => write!(f, "ALIKE rows {rows}"),
            Answer::Full => write!(f, "FULL rows {rows}"),
            Answer::Apart(split) => {
                let ground = ground_name(split.ground);
                let passer = side_name(split.passer);
                let offer = offer_word(split.ground);
                write!(
                    f,
                    "APART rows {rows} ground {ground} passer {passer} offer {offer:08X} track{trace}"
                )
            }
        }
    }
}

// The line of an answer, a number of rows and a trace. The trace is printed only where the answer is APART.
pub fn answer_line(heap: Global, progress: Progress, trace: &[u8]) -> Result<String, AllocError>
    ensures { IfOk result (λ s. string_bytes s ≡ answer_text (answer_of progress.answer) progress.rows trace.now ++ newline) }
{
    let answer = AnswerShown { progress, trace };
    format!(in heap; "{answer}\n")
}

// The line of a faulty word in the file of a side.
fn word_line(heap: Global, side: Side, fault: WordFault) -> Result<String, AllocError>
    ensures { IfOk result (λ s. string_bytes s ≡ codes "FAULT " ++ (side_text side ++ (codes " " ++ (place_text fault ++ newline)))) }
{
    let side = side_name(side);
    let number = fault.reason.number();
    let place = fault.place;
    format!(in heap; "FAULT {side} {number} at {place}\n")
}

// The line of two files of which one is faulty.
pub fn fault_line(heap: Global, fault: SideFault) -> Result<String, AllocError>
    ensures { IfOk result (λ s. string_bytes s ≡ line (Err fault)) }
{
    match fault {
        SideFault::Left(fault) => word_line(heap, Side::Left, fault.card.word),
        SideFault::Right(fault) => word_line(heap, Side::Right, fault.card.word),
    }
}

// The line of what a comparison tells as it stands.
pub fn comparison_line(heap: Global, comparison: &Comparison) -> Result<String, AllocError>
    ensures { IfOk result (λ s. string_bytes s ≡ line (Ok (told_in (state_of comparison.now)))) }
{
    // Room for the longest trace: the public call writes to a buffer of its caller's.
    let mut buffer = [0; 2048];
    let count = comparison.copy(&mut buffer).unwrap_or(0);
    answer_line(heap, comparison.ask(), &buffer[..count])
}

// The line of two systems, of any two kinds: what a comparison of them tells when it has gone as far as it goes. It is right: what it says of
// them holds, in the words of traces and tests.
pub fn systems_line<L: Lts + Drop, R: Lts + Drop>(
    heap: Global,
    left: L,
    right: R,
) -> Result<String, AllocError>
    ensures text { IfOk result (λ s. string_bytes s ≡ line (Ok (compared 2048 (L.meaning left) (R.meaning right)))) }
    ensures right { IfOk result (λ s. SystemsRight (L.meaning left) (R.meaning right) (string_bytes s)) }
{
    let Ok(mut comparison) = Comparison::open(heap, left, right) else {
        return Err(AllocError);
    };
    // Refused where the answer is not OPEN any more, and then nothing is left to do.
    let _ = comparison.advance(2048);
    comparison_law();
    comparison_line(heap, &comparison)
}

// The line of two card files: the same of the two cards, or the first fault. It is right as well.
pub fn files_line(heap: Global, left: &[u8], right: &[u8]) -> Result<String, AllocError>
    ensures text { IfOk result (λ s. string_bytes s ≡ files_line left.now right.now) }
    ensures right { IfOk result (λ s. LineRight left.now right.now (string_bytes s)) }
{
    let mut left_card = WrittenCard::new(heap)?;
    let mut right_card = WrittenCard::new(heap)?;
    if let Err(fault) = read_sides(&mut left_card, &mut right_card, left, right) {
        return fault_line(heap, fault);
    }
    comparison_law();
    systems_line(heap, left_card, right_card)
}
