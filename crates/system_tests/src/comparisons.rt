// Comparisons worked out by hand: from-action-to is a line, h is silent.
use crate::piles::hand_over;
use cards::written_card::WrittenCard;
use comparison::answer::{Answer, Progress};
use comparison::calls::{Call, Report};
use comparison::comparison::{Comparison, Unopened};
use comparison::refusal::Refusal;
use comparison::report::report;
use layers::counter::Counter;
use lts::sets::ActionSet;
use std::alloc::Global;
use std::process::Abort;
use std::test::*;
use testing::distinguishing::DistinguishingTest;
use testing::ground::{Ground, Side, Split};

// 0-0-1 1-1-2 1-2-2: after 0 it offers 1 and 2 together.
const MORNING: [u32; 5] = [
    0x1003_0003,
    0x2000_0001,
    0x2000_0842,
    0x2000_0882,
    0x5000_0000,
];

// 0-0-1 0-0-2 1-1-3 2-2-3: after 0 it offers 1 or 2.
const EVENING: [u32; 6] = [
    0x1004_0004,
    0x2000_0001,
    0x2000_0002,
    0x2000_0843,
    0x2000_1083,
    0x5000_0000,
];

// The ring 0-0-1 1-0-2 2-0-0.
const RING: [u32; 5] = [
    0x1003_0003,
    0x2000_0001,
    0x2000_0802,
    0x2000_1000,
    0x5000_0000,
];

// 0-0-0.
const LOOP: [u32; 3] = [0x1001_0001, 0x2000_0000, 0x5000_0000];

fn card(words: &[u32], heap: Global) -> Result<WrittenCard, Fail> {
    let mut card = WrittenCard::new(heap)?;
    card.read(words)?;
    Ok(card)
}

fn compare(left: &[u32], right: &[u32], heap: Global) -> Result<Comparison, Fail> {
    let left = card(left, heap)?;
    let right = card(right, heap)?;
    let opened = Comparison::open(heap, left, right);
    Ok(opened.map_err(|_| Refusal::NotOpen)?)
}

fn progress(answer: Answer, rows: usize) -> Progress {
    Progress { answer, rows }
}

// What a call tells. To copy is tried by `copies`, and asks here.
fn reply(comparison: &mut Comparison, call: Call) -> Result<Progress, Refusal> {
    match call {
        Call::Begin(limit) => comparison.begin(limit),
        Call::Advance(count) => comparison.advance(count),
        Call::Ask | Call::Copy(_) => Ok(comparison.ask()),
    }
}

// The calls, made one after another, each with what it tells.
fn calls(
    rt: &impl Abort,
    comparison: &mut Comparison,
    calls: &[(Call, Result<Progress, Refusal>)],
) {
    for (call, told) in calls {
        assert_eq!(rt; reply(comparison, *call), *told, "{call:?}");
    }
}

// What copying into the buffer tells, and what the buffer then holds.
fn copies(
    rt: &impl Abort,
    comparison: &Comparison,
    buffer: &mut [u8],
    told: Result<usize, Refusal>,
    holds: &[u8],
) {
    assert_eq!(rt; comparison.copy(buffer), told);
    assert_eq!(rt; &*buffer, holds);
}

fn fills(
    rt: &impl Abort,
    comparison: &Comparison,
    test: &mut DistinguishingTest,
    told: Result<(), Refusal>,
) {
    assert_eq!(rt; comparison.fill_test(test), told);
}

#[test]
fn not_yet_apart(rt: HostRuntime) -> Result<(), Fail> {
    let mut comparison = compare(&MORNING, &EVENING, rt.alloc())?;
    let open = progress(Answer::Open, 1);
    calls(&rt, &mut comparison, &[(Call::Ask, Ok(open))]);
    let refused = Refusal::NotApart;
    copies(&rt, &comparison, &mut [9; 3], Err(refused), &[9; 3]);
    fills(
        &rt,
        &comparison,
        &mut DistinguishingTest::new(),
        Err(refused),
    );
    Ok(())
}

// Told apart by an offer of these actions.
fn apart(offer: u32, passer: Side, rows: usize) -> Progress {
    let ground = Ground::Offer(ActionSet::from_bits(offer));
    progress(Answer::Apart(Split { ground, passer }), rows)
}

// Morning and evening compared, as far as need be.
fn decided(rt: &impl Abort, heap: Global) -> Result<Comparison, Fail> {
    let mut comparison = compare(&MORNING, &EVENING, heap)?;
    let told = Ok(apart(0xFFFF_FFFD, Side::Left, 1));
    let late = Err(Refusal::NotOpen);
    let made = [
        (Call::Advance(2048), told),
        (Call::Ask, told),
        (Call::Advance(1), late),
    ];
    calls(rt, &mut comparison, &made);
    Ok(comparison)
}

#[test]
fn apart_by_an_offer(rt: HostRuntime) -> Result<(), Fail> {
    let comparison = decided(&rt, rt.alloc())?;
    copies(&rt, &comparison, &mut [], Err(Refusal::ShortBuffer), &[]);
    copies(&rt, &comparison, &mut [9; 3], Ok(1), &[0, 9, 9]);
    Ok(())
}

fn is_passed_by(test: &DistinguishingTest, words: &[u32], heap: Global) -> Result<bool, Fail> {
    Ok(test.is_passed_by(&card(words, heap)?, heap)?)
}

#[test]
fn its_test(rt: HostRuntime) -> Result<(), Fail> {
    let comparison = decided(&rt, rt.alloc())?;
    let mut test = DistinguishingTest::new();
    fills(&rt, &comparison, &mut test, Ok(()));
    assert!(rt; is_passed_by(&test, &MORNING, rt.alloc())?);
    assert!(rt; !is_passed_by(&test, &EVENING, rt.alloc())?);
    Ok(())
}

#[test]
fn limits(rt: HostRuntime) -> Result<(), Fail> {
    let mut comparison = compare(&RING, &RING, rt.alloc())?;
    let refused = Err(Refusal::LimitOrCount);
    let made = [
        (Call::Begin(0), refused),
        (Call::Begin(2049), refused),
        (Call::Advance(0), refused),
        (Call::Advance(1), Ok(progress(Answer::Open, 2))),
        (Call::Begin(3), Ok(progress(Answer::Open, 1))),
        (Call::Advance(3), Ok(progress(Answer::Alike, 3))),
        (Call::Begin(2), Ok(progress(Answer::Open, 1))),
        (Call::Advance(2048), Ok(progress(Answer::Full, 2))),
        (Call::Advance(2049), refused),
        (Call::Advance(1), Err(Refusal::NotOpen)),
    ];
    calls(&rt, &mut comparison, &made);
    Ok(())
}

// A ring of so many states, by action 0.
fn ring(states: u32, heap: Global) -> Result<Vec<u32>, Fail> {
    let mut words = Vec::new(heap);
    words.push(0x1000_0000 | states << 16 | states)?;
    for state in 0..states {
        words.push(0x2000_0000 | state << 11 | (state + 1) % states)?;
    }
    words.push(0x5000_0000)?;
    Ok(words)
}

// 47 and 53 have no common divisor, so the two rings meet 2,491 pairs.
#[test]
fn full_at_the_most_rows(rt: HostRuntime) -> Result<(), Fail> {
    let left = ring(47, rt.alloc())?;
    let right = ring(53, rt.alloc())?;
    let mut comparison = compare(&left, &right, rt.alloc())?;
    let full = Ok(progress(Answer::Full, 2048));
    calls(&rt, &mut comparison, &[(Call::Advance(2048), full)]);
    Ok(())
}

// A line of 63 actions 0 beside 0-0-0: it stops at its end, where the other side offers 0. The trace of 63 actions is too long for a test.
#[test]
fn long_trace(rt: HostRuntime) -> Result<(), Fail> {
    let mut words = Vec::new(rt.alloc());
    words.push(0x103F_0040)?;
    for state in 0..63u32 {
        words.push(0x2000_0001 + state * 0x801)?;
    }
    words.push(0x5000_0000)?;
    let mut comparison = compare(&words, &LOOP, rt.alloc())?;
    let told = Ok(apart(0xFFFF_FFFF, Side::Right, 63));
    calls(&rt, &mut comparison, &[(Call::Advance(2048), told)]);
    let mut trace = [0; 64];
    trace[63] = 9;
    copies(&rt, &comparison, &mut [9; 64], Ok(63), &trace);
    let mut test = DistinguishingTest::new();
    fills(&rt, &comparison, &mut test, Err(Refusal::LongTrace));
    assert_eq!(rt; Refusal::LongTrace.number(), 12);
    Ok(())
}

// Two counters of capacity 1, the first of which hands over to the second in silence, beside one of capacity 2.
fn reported(calls: &[Call], buffer: &mut [u8], heap: Global) -> Result<Report, Fail> {
    match report(heap, hand_over()?, Counter::new(2, 0, 2)?, calls, buffer) {
        Ok(told) => Ok(told),
        Err(Unopened { left: _, right: _ }) => Err(Fail::from(Refusal::NotOpen)),
    }
}

#[test]
fn alike_counters(rt: HostRuntime) -> Result<(), Fail> {
    let calls = [
        Call::Ask,
        Call::Begin(0),
        Call::Advance(1),
        Call::Begin(5),
        Call::Copy(9),
        Call::Advance(2),
        Call::Advance(2048),
    ];
    let mut bytes = [9; 2];
    let told = reported(&calls, &mut bytes, rt.alloc())?;
    let asked = progress(Answer::Alike, 3);
    let copied = Err(Refusal::NotApart);
    assert_eq!(rt; told, Report { asked, copied });
    assert_eq!(rt; bytes, [9; 2]);
    Ok(())
}
