// The text of a card file beside a test file, worked out by hand: from-action-to is a line.
use crate::words::{EVENING, MORNING, file};
use printing::experiments_shown::experiment_text;
use std::alloc::Global;
use std::test::*;

// The test 0-0-1 1-2-2, of which state 2 passes.
const ZERO_THEN_TWO: [u32; 5] = [
    0x1002_0003,
    0x2000_0001,
    0x2000_0882,
    0x4000_0002,
    0x5000_0000,
];

// A head with two states beside a line to state 2.
const DAMAGED: [u32; 3] = [0x1001_0002, 0x2000_0002, 0x5000_0000];

// A card file beside a test file, the bytes after the words of the test's, and the text of the two.
#[derive(Drop)]
struct Case<'a> {
    card: &'a [u32],
    test: &'a [u32],
    left_over: usize,
    text: &'a str,
}

fn text(case: &Case, heap: Global) -> Result<String, Fail> {
    let card = file(case.card, heap)?;
    let mut test = file(case.test, heap)?;
    for _ in 0..case.left_over {
        test.push(0)?;
    }
    Ok(experiment_text(heap, card.as_slice(), test.as_slice())?)
}

#[test]
fn texts(rt: HostRuntime) -> Result<(), Fail> {
    let cases = [
        // After action 0 the one card always has action 2 ready. The other may be in state 1, where it has none but action 1, which the test lacks: it is stuck there.
        Case {
            card: &MORNING,
            test: &ZERO_THEN_TWO,
            left_over: 0,
            text: "may yes\nmust yes\n",
        },
        Case {
            card: &EVENING,
            test: &ZERO_THEN_TWO,
            left_over: 0,
            text: "may yes\nmust no\n",
        },
        // A card with no lines is stuck at once; and a card file is a good test file, of which no state passes.
        Case {
            card: &[0x1000_0001, 0x5000_0000],
            test: &ZERO_THEN_TWO,
            left_over: 0,
            text: "may no\nmust no\n",
        },
        Case {
            card: &MORNING,
            test: &EVENING,
            left_over: 0,
            text: "may no\nmust no\n",
        },
        // A fault in the card's line; and a passing state, which is no word of a card.
        Case {
            card: &DAMAGED,
            test: &ZERO_THEN_TWO,
            left_over: 0,
            text: "CARD FAULT 3 at 1\n",
        },
        Case {
            card: &ZERO_THEN_TWO,
            test: &ZERO_THEN_TWO,
            left_over: 0,
            text: "CARD FAULT 2 at 3\n",
        },
        // An empty file, and a byte left over after the end word.
        Case {
            card: &MORNING,
            test: &[],
            left_over: 0,
            text: "TEST FAULT 1 at 0\n",
        },
        Case {
            card: &MORNING,
            test: &ZERO_THEN_TWO,
            left_over: 1,
            text: "TEST FAULT 6 at 5\n",
        },
        // The card's fault comes first, also where the test's stands at an earlier word.
        Case {
            card: &DAMAGED,
            test: &[],
            left_over: 0,
            text: "CARD FAULT 3 at 1\n",
        },
        // 64 states beside 33 are 2,112 joint pairs, beside 32 they are 2,048. State 0, the start, passes in both tests.
        Case {
            card: &[0x1000_0040, 0x5000_0000],
            test: &[0x1000_0021, 0x4000_0000, 0x5000_0000],
            left_over: 0,
            text: "REFUSED 7\n",
        },
        Case {
            card: &[0x1000_0040, 0x5000_0000],
            test: &[0x1000_0020, 0x4000_0000, 0x5000_0000],
            left_over: 0,
            text: "may yes\nmust yes\n",
        },
    ];
    for case in &cases {
        let told = text(case, rt.alloc())?;
        assert_eq!(rt; told.as_str(), case.text, "{:?} {:?}", case.card, case.test);
    }
    Ok(())
}
