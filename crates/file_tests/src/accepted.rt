// Words that are accepted: what they mean, and that they are written back.
use cards::faults::*;
use cards::written_card::WrittenCard;
use cards::written_test::WrittenTest;
use lts::system::{Lts, Test};
use std::alloc::Global;
use std::process::Abort;
use std::test::*;

// The card that the words are.
fn read(heap: Global, words: &[u32]) -> Result<WrittenCard, Fail> {
    let mut card = WrittenCard::new(heap)?;
    card.read(words)?;
    Ok(card)
}

// The states, the start, and where actions (from, action, to) and silent transitions (from, to) lead, as a word: bit q for state q.
fn means<S: Lts>(
    rt: &impl Abort,
    system: &S,
    head: (usize, usize),
    visible: &[(usize, usize, u64)],
    hidden: &[(usize, u64)],
) {
    assert_eq!(rt; (system.count(), system.start()), head);
    for (from, action, to) in visible {
        assert_eq!(rt;
            system.visible(*from, *action).bits(),
            *to,
            "{from}-{action}"
        );
    }
    for (from, to) in hidden {
        assert_eq!(rt; system.hidden(*from).bits(), *to, "{from}-h");
    }
}

// What writing into the buffer tells, and what the buffer then holds.
fn writes(
    rt: &impl Abort,
    card: &WrittenCard,
    out: &mut [u32],
    told: Result<usize, ShortBuffer>,
    holds: &[u32],
) {
    assert_eq!(rt; card.write(out), told);
    assert_eq!(rt; &*out, holds);
}

// Action 0 leads from state 0 to state 1, and actions 1 and 2 from there to state 2.
#[test]
fn three_states(rt: HostRuntime) -> Result<(), Fail> {
    let words = [
        0x1003_0003,
        0x2000_0001,
        0x2000_0842,
        0x2000_0882,
        0x5000_0000,
    ];
    let card = read(rt.alloc(), &words)?;
    let visible = [
        (0, 0, 0b10),
        (1, 1, 0b100),
        (1, 2, 0b100),
        (0, 1, 0),
        (0, 32, 0),
        (2, 0, 0),
        (3, 0, 0),
    ];
    means(&rt, &card, (3, 0), &visible, &[(0, 0)]);
    writes(&rt, &card, &mut [0; 5], Ok(5), &words);
    let held = [0xFFFF_FFFF; 4];
    writes(&rt, &card, &mut [0xFFFF_FFFF; 4], Err(ShortBuffer), &held);
    assert_eq!(rt; ShortBuffer.number(), 8);
    Ok(())
}

// Action 0 leads from state 0 to states 1 and 2, and to state 3 action 1 from the one and action 2 from the other.
#[test]
fn four_states(rt: HostRuntime) -> Result<(), Fail> {
    let words = [
        0x1004_0004,
        0x2000_0001,
        0x2000_0002,
        0x2000_0843,
        0x2000_1083,
        0x5000_0000,
    ];
    let card = read(rt.alloc(), &words)?;
    let visible = [
        (0, 0, 0b110),
        (1, 1, 0b1000),
        (2, 2, 0b1000),
        (1, 2, 0),
        (3, 0, 0),
        (4, 0, 0),
    ];
    means(&rt, &card, (4, 0), &visible, &[(4, 0)]);
    writes(&rt, &card, &mut [0; 6], Ok(6), &words);
    let longer = [
        0x1004_0004,
        0x2000_0001,
        0x2000_0002,
        0x2000_0843,
        0x2000_1083,
        0x5000_0000,
        0xFFFF_FFFF,
        0xFFFF_FFFF,
    ];
    writes(&rt, &card, &mut [0xFFFF_FFFF; 8], Ok(6), &longer);
    Ok(())
}

// The start, a line and a silent line at state 63, the last there can be.
#[test]
fn most_states(rt: HostRuntime) -> Result<(), Fail> {
    let words = [0x1002_3F40, 0x2001_FFFF, 0x3001_F83F, 0x5000_0000];
    let card = read(rt.alloc(), &words)?;
    let last = 0x8000_0000_0000_0000;
    let visible = [(63, 31, last), (63, 32, 0), (64, 31, 0)];
    means(&rt, &card, (64, 63), &visible, &[(63, last), (64, 0)]);
    writes(&rt, &card, &mut [0; 4], Ok(4), &words);
    Ok(())
}

// Actions 0 to 3 lead from each state p to state 63 - p. Two plain loops: to make the words by their place would take it apart again.
fn most_lines_words() -> [u32; 258] {
    let mut words = [0x1100_0040; 258];
    for state in 0..64usize {
        for action in 0..4usize {
            words[1 + 4 * state + action] = 0x2000_0000
                + 0x800 * state as u32
                + 0x40 * action as u32
                + (63 - state as u32);
        }
    }
    words[257] = 0x5000_0000;
    words
}

#[test]
fn most_lines(rt: HostRuntime) -> Result<(), Fail> {
    let words = most_lines_words();
    let card = read(rt.alloc(), &words)?;
    let visible = [
        (0, 0, 0x8000_0000_0000_0000),
        (20, 3, 0x800_0000_0000),
        (63, 3, 1),
        (63, 4, 0),
    ];
    means(&rt, &card, (64, 0), &visible, &[]);
    writes(&rt, &card, &mut [0; 258], Ok(258), &words);
    Ok(())
}

// Action 0 leads from state 0 to state 1, a silent transition from there to state 2; states 0 and 2 pass.
#[test]
fn passing(rt: HostRuntime) -> Result<(), Fail> {
    let words = [
        0x1002_0003,
        0x2000_0001,
        0x3000_0802,
        0x4000_0000,
        0x4000_0002,
        0x5000_0000,
    ];
    let mut test = WrittenTest::new(rt.alloc())?;
    assert!(rt; !test.passes(0));
    test.read(&words)?;
    means(&rt, &test, (3, 0), &[(0, 0, 0b10)], &[(1, 0b100)]);
    for (state, passes) in [(0, true), (1, false), (2, true), (3, false), (64, false)] {
        assert_eq!(rt; test.passes(state), passes, "{state}");
    }
    let mut exact = [0; 6];
    assert_eq!(rt; test.write(&mut exact), Ok(6));
    assert_eq!(rt; exact, words);
    let mut short = [0xFFFF_FFFF; 5];
    assert_eq!(rt; test.write(&mut short), Err(ShortBuffer));
    assert_eq!(rt; short, [0xFFFF_FFFF; 5]);
    Ok(())
}
