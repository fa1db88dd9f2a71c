// A list of calls of a comparison as words, and what is replied, as words.
ghost use Rattle.std.specs.Prelude.{◌≡◌, ◌≤◌, [], ◌∷◌, ◌++◌, length, IfOk, OnOk};
ghost use Rattle.comparison.specs.Calls.{Copy, reply};
ghost use Rattle.comparison.specs.Exploration.{told_trace};
ghost use Rattle.comparison.specs.Filled.{fill_reply};
ghost use Rattle.comparison.specs.Compared.{pairs_of, state_of, SameSystems};
ghost use Rattle.comparison.specs.Replies.{answer_of, progress_reply};
ghost use Rattle.alike_c.specs.CardReplies.{word as word_of};
ghost use Rattle.alike_c.specs.CallReplies.{requested, requests, ground_number as number_of_ground, side_number as number_of_side, side_fault_number as number_of_side_fault, answer_words, reply_words, filled_words, words_of, state_after, words_from, calls_words as words_of_calls};

use crate::words::word;
use cards::faults::SideFault;
use cards::sides::read_sides;
use cards::written_card::WrittenCard;
use comparison::answer::{Answer, Progress};
use comparison::comparison::Comparison;
use comparison::refusal::Refusal;
use lts::system::Lts;
use reports::lines::offer_word;
use std::alloc::{AllocError, Global};
use testing::distinguishing::DistinguishingTest;
use testing::ground::{Ground, Side};

// A call of a list: begin with a limit, advance by a count of rows, ask, copy into a buffer with so much room, and fill a distinguishing test. Words that
// say none of them are an unknown call.
#[derive(Clone, Copy)]
enum Request {
    Begin(usize),
    Advance(usize),
    Ask,
    Copy(usize),
    FillTest,
    Unknown,
}

// A copy never wants more room.
const MOST_ROOM: usize = 2048;

impl Request {
    // The call that a kind and a number say.
    fn new(kind: u32, number: u32) -> Request
        ensures { result ≡ requested kind number }
    {
        let number = number as usize;
        match kind {
            1 => Request::Begin(number),
            2 => Request::Advance(number),
            3 => Request::Ask,
            4 => Request::Copy(number),
            5 => Request::FillTest,
            _ => Request::Unknown,
        }
    }
}

fn ground_number(ground: Ground) -> u32
    ensures { result ≡ number_of_ground ground }
{
    match ground {
        Ground::Reach => 1,
        Ground::Settle => 2,
        Ground::Offer(_) => 3,
    }
}

fn side_number(side: Side) -> u32
    ensures { result ≡ number_of_side side }
{
    match side {
        Side::Left => 1,
        Side::Right => 2,
    }
}

// An answer and a number of rows: six words, the first 0.
fn push_answer(replies: &mut Vec<u32>, progress: Progress) -> Result<(), AllocError>
    ensures { OnOk result (replies.new.items ≡ replies.old.items ++ answer_words (answer_of progress.answer) progress.rows) }
{
    let rows = word(progress.rows);
    let words = match progress.answer {
        Answer::Open => [0, 0, rows, 0, 0, 0],
        Answer::Alike => [0, 1, rows, 0, 0, 0],
        Answer::Full => [0, 2, rows, 0, 0, 0],
        Answer::Apart(split) => [
            0,
            3,
            rows,
            ground_number(split.ground),
            side_number(split.passer),
            offer_word(split.ground),
        ],
    };
    replies.extend_from_slice(&words)
}

// A refusal: 3 and its number.
fn push_refusal(replies: &mut Vec<u32>, number: u8) -> Result<(), AllocError>
    ensures { OnOk result (replies.new.items ≡ replies.old.items ++ (3 ∷ number ∷ [])) }
{
    replies.extend_from_slice(&[3, u32::from(number)])
}

// What begin or advance returned.
fn push_progress(replies: &mut Vec<u32>, told: Result<Progress, Refusal>) -> Result<(), AllocError>
    ensures { OnOk result (replies.new.items ≡ replies.old.items ++ reply_words (progress_reply told)) }
{
    match told {
        Ok(progress) => push_answer(replies, progress),
        Err(refusal) => push_refusal(replies, refusal.number()),
    }
}

// A trace: 1, its length and its actions.
fn push_trace(replies: &mut Vec<u32>, trace: &[u8]) -> Result<(), AllocError>
    ensures { OnOk result (replies.new.items ≡ replies.old.items ++ (1 ∷ word_of (length trace.now) ∷ trace.now)) }
{
    replies.extend_from_slice(&[1, word(trace.len())])?;
    for &action in trace {
        replies.push(u32::from(action))?;
    }
    Ok(())
}

// What copying into a buffer with so much room returns.
fn push_copy(replies: &mut Vec<u32>, comparison: &Comparison, room: usize) -> Result<(), AllocError>
    requires { room ≤ 2048 }
    ensures { OnOk result (replies.new.items ≡ replies.old.items ++ reply_words (reply (pairs_of comparison.now) (Copy room) (state_of comparison.now))) }
{
    let mut whole = [255; MOST_ROOM];
    let buffer = &mut whole[..room];
    match comparison.copy(buffer) {
        Ok(count) => push_trace(replies, &buffer[..count]),
        Err(refusal) => push_refusal(replies, refusal.number()),
    }
}

// What filling a test returns: 2 and the number of its states.
fn push_test(replies: &mut Vec<u32>, comparison: &Comparison) -> Result<(), AllocError>
    ensures { let st = state_of comparison.now in OnOk result (replies.new.items ≡ replies.old.items ++ filled_words (told_trace st) (fill_reply st.answer (told_trace st))) }
{
    let mut test = DistinguishingTest::new();
    match comparison.fill_test(&mut test) {
        Ok(()) => replies.extend_from_slice(&[2, word(test.count())]),
        Err(refusal) => push_refusal(replies, refusal.number()),
    }
}

// Makes one call.
fn make(
    comparison: &mut Comparison,
    request: Request,
    replies: &mut Vec<u32>,
) -> Result<(), AllocError>
    ensures same { SameSystems comparison.old comparison.new }
    ensures after { state_of comparison.new ≡ state_after (pairs_of comparison.old) request (state_of comparison.old) }
    ensures told { OnOk result (replies.new.items ≡ replies.old.items ++ words_of (pairs_of comparison.old) request (state_of comparison.old)) }
{
    match request {
        Request::Begin(limit) => push_progress(replies, comparison.begin(limit)),
        Request::Advance(count) => push_progress(replies, comparison.advance(count)),
        Request::Ask => push_answer(replies, comparison.ask()),
        Request::Copy(room) => push_copy(replies, comparison, room.min(MOST_ROOM)),
        Request::FillTest => push_test(replies, comparison),
        Request::Unknown => push_refusal(replies, 0),
    }
}

// Makes the calls that words say, two by two; a word left over says none.
fn make_all(
    comparison: &mut Comparison,
    calls: &[u32],
    replies: &mut Vec<u32>,
) -> Result<(), AllocError>
    ensures told { OnOk result (replies.new.items ≡ replies.old.items ++ words_from (pairs_of comparison.old) (state_of comparison.old) (requests calls.now)) }
{
    let (pairs, _) = calls.as_chunks::<2>();
    for call in pairs {
        let &[kind, number] = call;
        make(comparison, Request::new(kind, number), replies)?;
    }
    Ok(())
}

fn side_fault_number(fault: SideFault) -> u8
    ensures { result ≡ number_of_side_fault fault }
{
    match fault {
        SideFault::Left(fault) => fault.card.word.reason.number(),
        SideFault::Right(fault) => fault.card.word.reason.number(),
    }
}

// What the calls reply, made of a comparison of the cards of two files; or the first fault of the files as a refusal.
pub(crate) fn calls_words(
    heap: Global,
    left: &[u8],
    right: &[u8],
    calls: &[u32],
) -> Result<Vec<u32>, AllocError>
    ensures { IfOk result (λ ws. ws.items ≡ words_of_calls left.now right.now calls.now) }
{
    let mut left_card = WrittenCard::new(heap)?;
    let mut right_card = WrittenCard::new(heap)?;
    let mut replies = Vec::new(heap);
    if let Err(fault) = read_sides(&mut left_card, &mut right_card, left, right) {
        push_refusal(&mut replies, side_fault_number(fault))?;
        return Ok(replies);
    }
    let Ok(mut comparison) = Comparison::open(heap, left_card, right_card) else {
        return Err(AllocError);
    };
    make_all(&mut comparison, calls, &mut replies)?;
    Ok(replies)
}
