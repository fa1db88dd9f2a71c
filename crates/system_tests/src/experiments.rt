// What is told of a card beside a test, worked out by hand: from-action-to is a line, h is silent. May: some run visits a passing state. Must: none ends, or goes on
// for ever, without having visited one.
use cards::written_card::WrittenCard;
use cards::written_test::WrittenTest;
use layers::counter::Counter;
use std::alloc::Global;
use std::test::*;
use testing::experiment::*;

fn tell(card: &[u32], test: &[u32], heap: Global) -> Result<Outcome, Fail> {
    let mut system = WrittenCard::new(heap)?;
    system.read(card)?;
    let mut examiner = WrittenTest::new(heap)?;
    examiner.read(test)?;
    Ok(experiment(&system, &examiner, heap)?)
}

// A card beside a test, and what is told of the two.
#[derive(Drop)]
struct Case<'a> {
    name: &'a str,
    card: &'a [u32],
    test: &'a [u32],
    told: Outcome,
}

// The test 0-0-1, of which state 1 passes.
const ONE_ACTION: [u32; 4] = [0x1001_0002, 0x2000_0001, 0x4000_0001, 0x5000_0000];

const ALWAYS: Outcome = Outcome {
    may: true,
    must: true,
};

const SOMETIMES: Outcome = Outcome {
    may: true,
    must: false,
};

const NEVER: Outcome = Outcome {
    may: false,
    must: false,
};

#[test]
fn written(rt: HostRuntime) -> Result<(), Fail> {
    let cases = [
        // The card 0-h-0 beside a test of one state that passes: each run visits it at the first pair, so it does not matter that one goes on for ever.
        Case {
            name: "passing start",
            card: &[0x1001_0001, 0x3000_0000, 0x5000_0000],
            test: &[0x1000_0001, 0x4000_0000, 0x5000_0000],
            told: ALWAYS,
        },
        // The card 0-0-1 0-h-0: the action leads to the passing state, but the card can run silently for ever before it.
        Case {
            name: "diverges before",
            card: &[0x1002_0002, 0x2000_0001, 0x3000_0000, 0x5000_0000],
            test: &ONE_ACTION,
            told: SOMETIMES,
        },
        // The card 0-0-1 1-h-1: it can run silently for ever, but only after the action, and then the test has passed.
        Case {
            name: "diverges after",
            card: &[0x1002_0002, 0x2000_0001, 0x3000_0801, 0x5000_0000],
            test: &ONE_ACTION,
            told: ALWAYS,
        },
        // The test 0-0-1 1-h-2 2-h-2, of which state 1 passes, beside the card 0-0-1: the only endless run has gone through the passing state.
        Case {
            name: "endless through passing",
            card: &[0x1001_0002, 0x2000_0001, 0x5000_0000],
            test: &[
                0x1003_0003,
                0x2000_0001,
                0x3000_0802,
                0x3000_1002,
                0x4000_0001,
                0x5000_0000,
            ],
            told: ALWAYS,
        },
        // The same without the loop at state 2: the run ends in a state that does not pass, and has gone through one that does.
        Case {
            name: "stuck after passing",
            card: &[0x1001_0002, 0x2000_0001, 0x5000_0000],
            test: &[
                0x1002_0003,
                0x2000_0001,
                0x3000_0802,
                0x4000_0001,
                0x5000_0000,
            ],
            told: ALWAYS,
        },
        // The card 0-1-1 has action 1 and the test action 0: neither moves by an action of its own, so no joint step is left at the first pair.
        Case {
            name: "stuck at once",
            card: &[0x1001_0002, 0x2000_0041, 0x5000_0000],
            test: &ONE_ACTION,
            told: NEVER,
        },
        // The card 0-1-1 1-0-2 has the action of the test only after one that the test lacks: the two are stuck at the first pair.
        Case {
            name: "no action alone",
            card: &[0x1002_0003, 0x2000_0041, 0x2000_0802, 0x5000_0000],
            test: &ONE_ACTION,
            told: NEVER,
        },
        // The card 0-0-1 0-0-2 1-1-3 beside the test 0-0-1 1-1-2, of which state 2 passes: from state 1 of the card action 1 leads there, from state 2 nothing does.
        Case {
            name: "stuck on one way",
            card: &[
                0x1003_0004,
                0x2000_0001,
                0x2000_0002,
                0x2000_0843,
                0x5000_0000,
            ],
            test: &[
                0x1002_0003,
                0x2000_0001,
                0x2000_0842,
                0x4000_0002,
                0x5000_0000,
            ],
            told: SOMETIMES,
        },
        // The test 0-0-2 0-h-1, of which state 1 passes, beside the card 0-0-0: the test can pass in silence, or go astray by the action.
        Case {
            name: "test moves alone",
            card: &[0x1001_0001, 0x2000_0000, 0x5000_0000],
            test: &[
                0x1002_0003,
                0x2000_0002,
                0x3000_0001,
                0x4000_0001,
                0x5000_0000,
            ],
            told: SOMETIMES,
        },
        // A test of one state that does not pass is never passed, whether the card is stuck beside it or can run for ever.
        Case {
            name: "one state, stuck",
            card: &[0x1000_0001, 0x5000_0000],
            test: &[0x1000_0001, 0x5000_0000],
            told: NEVER,
        },
        Case {
            name: "one state, endless",
            card: &[0x1001_0001, 0x3000_0000, 0x5000_0000],
            test: &[0x1000_0001, 0x5000_0000],
            told: NEVER,
        },
    ];
    for case in &cases {
        assert_eq!(rt;
            tell(case.card, case.test, rt.alloc())?,
            case.told,
            "{}",
            case.name
        );
    }
    Ok(())
}

// A counter that takes in by 0 and hands out by 1, beside the test.
fn counts(
    capacity: usize,
    test: &WrittenTest,
    heap: Global,
) -> Result<Result<Outcome, ExperimentFault>, Fail> {
    Ok(experiment(&Counter::new(capacity, 0, 1)?, test, heap))
}

// A test that counts 31 actions 0 and passes with the last.
fn count_to_31() -> [u32; 34] {
    let mut words = [0x101F_0020; 34];
    for state in 0..31usize {
        words[1 + state] = 0x2000_0000 + 0x800 * state as u32 + (state as u32 + 1);
    }
    words[32] = 0x4000_001F;
    words[33] = 0x5000_0000;
    words
}

// A counter of 64 states beside 32: 2,048 pairs are the most that are held. The counter can do 31 actions 0 and nothing else that the test can.
#[test]
fn most_pairs(rt: HostRuntime) -> Result<(), Fail> {
    let mut test = WrittenTest::new(rt.alloc())?;
    test.read(&count_to_31())?;
    assert_eq!(rt; counts(63, &test, rt.alloc())?, Ok(ALWAYS));
    assert_eq!(rt; counts(30, &test, rt.alloc())?, Ok(NEVER));
    Ok(())
}

// 64 states beside 33 are 64 pairs too many.
#[test]
fn too_many_pairs(rt: HostRuntime) -> Result<(), Fail> {
    let mut test = WrittenTest::new(rt.alloc())?;
    test.read(&[0x1000_0021, 0x4000_0000, 0x5000_0000])?;
    let refused = ExperimentFault::TooLarge;
    assert_eq!(rt; refused.number(), Some(7));
    assert_eq!(rt; counts(63, &test, rt.alloc())?, Err(refused));
    assert_eq!(rt; counts(61, &test, rt.alloc())?, Ok(ALWAYS));
    Ok(())
}
