// Words that are refused. A refusal leaves all as it stood.
use cards::faults::*;
use cards::written_card::WrittenCard;
use cards::written_test::WrittenTest;
use lts::system::{Lts, Test};
use std::alloc::Global;
use std::process::Abort;
use std::test::*;

// What a file is refused for.
#[derive(Clone, Copy)]
struct Refusal {
    heap: Global,
    reason: Reason,
}

// One function for cards and tests would be no plainer: no trait has the `read` and `write` of both, and each is asked something else afterwards.
impl Refusal {
    // The words, each with the place of the fault, are no card, and the card that was read before stays: action 0 leads from state 0 to state 1.
    fn cards(self, rt: &impl Abort, cases: &[(usize, &[u32])]) -> Result<(), Fail> {
        let reason = self.reason;
        let mut card = WrittenCard::new(self.heap)?;
        card.read(&[0x1001_0002, 0x2000_0001, 0x5000_0000])?;
        for (place, words) in cases {
            let place = *place;
            assert_eq!(rt;
                card.read(words),
                Err(WordFault { reason, place }),
                "{words:?}"
            );
            assert_eq!(rt; card.visible(0, 0).bits(), 0b10);
            let mut out = [0; 3];
            assert_eq!(rt; card.write(&mut out), Ok(3));
            assert_eq!(rt; out, [0x1001_0002, 0x2000_0001, 0x5000_0000]);
        }
        Ok(())
    }

    // The words are no test, and the test that was read before stays: a silent transition leads from state 0 to state 1, which passes.
    fn test(self, rt: &impl Abort, place: usize, words: &[u32]) -> Result<(), Fail> {
        let reason = self.reason;
        let mut test = WrittenTest::new(self.heap)?;
        test.read(&[0x1001_0002, 0x3000_0001, 0x4000_0001, 0x5000_0000])?;
        assert_eq!(rt; test.read(words), Err(WordFault { reason, place }));
        assert_eq!(rt; test.hidden(0).bits(), 0b10);
        assert!(rt; test.passes(1));
        let mut out = [0; 4];
        assert_eq!(rt; test.write(&mut out), Ok(4));
        assert_eq!(rt; out, [0x1001_0002, 0x3000_0001, 0x4000_0001, 0x5000_0000]);
        Ok(())
    }
}

// No end word.
#[test]
fn missing(rt: HostRuntime) -> Result<(), Fail> {
    let missing = Refusal {
        heap: rt.alloc(),
        reason: Reason::Missing,
    };
    let cards: [(usize, &[u32]); 3] = [
        (0, &[]),
        (1, &[0x1000_0001]),
        (2, &[0x1001_0001, 0x2000_0000]),
    ];
    missing.cards(&rt, &cards)?;
    missing.test(&rt, 2, &[0x1000_0001, 0x4000_0000])
}

// A kind that may not stand there, and an unused bit that is set.
#[test]
fn kind(rt: HostRuntime) -> Result<(), Fail> {
    let kind = Refusal {
        heap: rt.alloc(),
        reason: Reason::Kind,
    };
    let cards: [(usize, &[u32]); 7] = [
        (0, &[0x5000_0000]),
        (1, &[0x1000_0001, 0x1000_0002, 0x5000_0000]),
        (1, &[0x1000_0001, 0x4000_0000, 0x5000_0000]),
        (1, &[0x1000_0001, 0x6000_0000]),
        (1, &[0x1001_0001, 0x2002_0000, 0x5000_0000]),
        (1, &[0x1001_0001, 0x3000_0040, 0x5000_0000]),
        (1, &[0x1000_0001, 0x5000_0001]),
    ];
    kind.cards(&rt, &cards)?;
    kind.test(&rt, 1, &[0x1000_0001, 0x4000_0040, 0x5000_0000])
}

// No state, 65 states, a start that is none, 257 lines.
#[test]
fn range_of_the_head(rt: HostRuntime) -> Result<(), Fail> {
    let range = Refusal {
        heap: rt.alloc(),
        reason: Reason::Range,
    };
    let cards: [(usize, &[u32]); 4] = [
        (0, &[0x1000_0000, 0x5000_0000]),
        (0, &[0x1000_0041, 0x5000_0000]),
        (0, &[0x1000_0101, 0x5000_0000]),
        (0, &[0x1101_0001, 0x5000_0000]),
    ];
    range.cards(&rt, &cards)
}

// A line that leads to no state or leaves none, and a passing state that is none.
#[test]
fn range(rt: HostRuntime) -> Result<(), Fail> {
    let range = Refusal {
        heap: rt.alloc(),
        reason: Reason::Range,
    };
    assert_eq!(rt; range.reason.number(), 3);
    let three_states_told_as_two = [
        0x1003_0002,
        0x2000_0001,
        0x2000_0842,
        0x2000_0882,
        0x5000_0000,
    ];
    let cards: [(usize, &[u32]); 3] = [
        (2, &three_states_told_as_two),
        (1, &[0x1001_0002, 0x2000_1000, 0x5000_0000]),
        (1, &[0x1001_0002, 0x3000_0002, 0x5000_0000]),
    ];
    range.cards(&rt, &cards)?;
    range.test(&rt, 1, &[0x1000_0002, 0x4000_0002, 0x5000_0000])
}

// A word that is equal to the one before, or lower.
#[test]
fn order(rt: HostRuntime) -> Result<(), Fail> {
    let order = Refusal {
        heap: rt.alloc(),
        reason: Reason::Order,
    };
    let cards: [(usize, &[u32]); 2] = [
        (2, &[0x1002_0001, 0x2000_0000, 0x2000_0000, 0x5000_0000]),
        (2, &[0x1002_0002, 0x2000_0001, 0x2000_0000, 0x5000_0000]),
    ];
    order.cards(&rt, &cards)?;
    order.test(
        &rt,
        2,
        &[0x1000_0002, 0x4000_0001, 0x4000_0000, 0x5000_0000],
    )
}

// More lines than the head says, and fewer.
#[test]
fn lines(rt: HostRuntime) -> Result<(), Fail> {
    let lines = Refusal {
        heap: rt.alloc(),
        reason: Reason::Lines,
    };
    let cards: [(usize, &[u32]); 2] = [
        (2, &[0x1001_0002, 0x2000_0000, 0x2000_0001, 0x5000_0000]),
        (2, &[0x1002_0001, 0x2000_0000, 0x5000_0000]),
    ];
    lines.cards(&rt, &cards)
}

// A word after the end, whatever it is.
#[test]
fn trailing(rt: HostRuntime) -> Result<(), Fail> {
    let trailing = Refusal {
        heap: rt.alloc(),
        reason: Reason::Trailing,
    };
    let cards: [(usize, &[u32]); 2] = [
        (2, &[0x1000_0001, 0x5000_0000, 0x5000_0000]),
        (2, &[0x1000_0001, 0x5000_0000, 0xFFFF_FFFF]),
    ];
    trailing.cards(&rt, &cards)
}

// Where one word has two faults, the lower number is told.
#[test]
fn first_of_two(rt: HostRuntime) -> Result<(), Fail> {
    let heap = rt.alloc();
    let kind = Refusal {
        heap,
        reason: Reason::Kind,
    };
    let kinds: [(usize, &[u32]); 2] = [
        (0, &[0x2000_0000]),
        (1, &[0x1001_0001, 0x2002_0001, 0x5000_0000]),
    ];
    kind.cards(&rt, &kinds)?;
    let range = Refusal {
        heap,
        reason: Reason::Range,
    };
    let ranges: [(usize, &[u32]); 1] = [(2, &[0x1002_0002, 0x2000_0800, 0x2000_0002, 0x5000_0000])];
    range.cards(&rt, &ranges)?;
    let order = Refusal {
        heap,
        reason: Reason::Order,
    };
    let orders: [(usize, &[u32]); 1] = [(2, &[0x1001_0002, 0x2000_0001, 0x2000_0000, 0x5000_0000])];
    order.cards(&rt, &orders)
}
