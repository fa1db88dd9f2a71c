// The line that is printed of two cards, as docs/FORMAT.md gives it.
use crate::words::{DAMAGED, EVENING, MORNING, file};
use cards::written_card::WrittenCard;
use comparison::answer::{Answer, Progress};
use comparison::comparison::Comparison;
use reports::lines::{answer_line, comparison_line, files_line};
use std::alloc::{AllocError, Global};
use std::test::*;

// The words of two files, and the line that is printed of them.
#[derive(Drop)]
struct Case<'a> {
    left: &'a [u32],
    right: &'a [u32],
    line: &'a str,
}

fn line(case: &Case, heap: Global) -> Result<String, Fail> {
    let left = file(case.left, heap)?;
    let right = file(case.right, heap)?;
    Ok(files_line(heap, left.as_slice(), right.as_slice())?)
}

// One state: without a line, with an endless silent run, and with action 0 beside that.
const BLANK: [u32; 2] = [0x1000_0001, 0x5000_0000];

const IDLE: [u32; 3] = [0x1001_0001, 0x3000_0000, 0x5000_0000];

const IDLE_ABLE: [u32; 4] = [0x1002_0001, 0x2000_0000, 0x3000_0000, 0x5000_0000];

// A silent choice, of action 0 or of actions 0 and 1; and action 1, or a silent step and then action 0.
const TWO_WAYS: [u32; 7] = [
    0x1005_0004,
    0x2000_0803,
    0x2000_1003,
    0x2000_1043,
    0x3000_0001,
    0x3000_0002,
    0x5000_0000,
];

const ONE_WAY: [u32; 5] = [
    0x1003_0003,
    0x2000_0042,
    0x2000_0802,
    0x3000_0001,
    0x5000_0000,
];

// The card may be in state n, from 1 to 12, exactly when the nth action from the end was 0. So there are 4,096 sets of states that it may be in.
const MEMORY: [u32; 27] = [
    0x1019_000D,
    0x2000_0000,
    0x2000_0001,
    0x2000_0040,
    0x2000_0802,
    0x2000_0842,
    0x2000_1003,
    0x2000_1043,
    0x2000_1804,
    0x2000_1844,
    0x2000_2005,
    0x2000_2045,
    0x2000_2806,
    0x2000_2846,
    0x2000_3007,
    0x2000_3047,
    0x2000_3808,
    0x2000_3848,
    0x2000_4009,
    0x2000_4049,
    0x2000_480A,
    0x2000_484A,
    0x2000_500B,
    0x2000_504B,
    0x2000_580C,
    0x2000_584C,
    0x5000_0000,
];

#[test]
fn lines(rt: HostRuntime) -> Result<(), Fail> {
    let cases = [
        // An offer tells them apart, convergence, or what can be done.
        Case {
            left: &MORNING,
            right: &EVENING,
            line: "APART rows 1 ground OFFER passer LEFT offer FFFFFFFD track 0\n",
        },
        Case {
            left: &BLANK,
            right: &IDLE,
            line: "APART rows 0 ground SETTLE passer LEFT offer 00000000 track -\n",
        },
        Case {
            left: &IDLE,
            right: &IDLE_ABLE,
            line: "APART rows 1 ground REACH passer RIGHT offer 00000000 track 0\n",
        },
        Case {
            left: &TWO_WAYS,
            right: &ONE_WAY,
            line: "ALIKE rows 2\n",
        },
        Case {
            left: &BLANK,
            right: &BLANK,
            line: "ALIKE rows 1\n",
        },
        // Beside itself it meets a pair for each of its sets of states, which are more than 2,048.
        Case {
            left: &MEMORY,
            right: &MEMORY,
            line: "FULL rows 2048\n",
        },
        // The left file's fault is told first.
        Case {
            left: &DAMAGED,
            right: &EVENING,
            line: "FAULT LEFT 3 at 2\n",
        },
        Case {
            left: &EVENING,
            right: &DAMAGED,
            line: "FAULT RIGHT 3 at 2\n",
        },
        Case {
            left: &[],
            right: &DAMAGED,
            line: "FAULT LEFT 1 at 0\n",
        },
    ];
    for case in &cases {
        let told = line(case, rt.alloc())?;
        assert_eq!(rt;
            told.as_str(),
            case.line,
            "{:?} {:?}",
            case.left,
            case.right
        );
    }
    Ok(())
}

// Two blank cards.
fn blank_pair(heap: Global) -> Result<Comparison, Fail> {
    let left = WrittenCard::new(heap)?;
    let right = WrittenCard::new(heap)?;
    Ok(Comparison::open(heap, left, right).map_err(|_| AllocError)?)
}

fn printed(comparison: &Comparison, heap: Global) -> Result<String, Fail> {
    Ok(comparison_line(heap, comparison)?)
}

// They have one pair, which waits until a row is handled.
#[test]
fn open_comparison(rt: HostRuntime) -> Result<(), Fail> {
    let mut comparison = blank_pair(rt.alloc())?;
    let before = printed(&comparison, rt.alloc())?;
    assert_eq!(rt; before.as_str(), "OPEN rows 1\n");
    let _ = comparison.advance(1);
    let after = printed(&comparison, rt.alloc())?;
    assert_eq!(rt; after.as_str(), "ALIKE rows 1\n");
    Ok(())
}

// A trace is printed at APART only.
#[test]
fn answer_without_a_trace(rt: HostRuntime) -> Result<(), Fail> {
    let full = Progress {
        answer: Answer::Full,
        rows: 2,
    };
    let text = answer_line(rt.alloc(), full, &[0, 1])?;
    assert_eq!(rt; text.as_str(), "FULL rows 2\n");
    Ok(())
}
