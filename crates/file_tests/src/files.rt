// Files of bytes, words with their low byte first.
use cards::faults::*;
use cards::sides::read_sides;
use cards::written_card::WrittenCard;
use cards::written_test::WrittenTest;
use lts::system::Lts;
use std::alloc::Global;
use std::test::*;

// A blank card: a head with one state, and the end.
const BLANK: [u8; 8] = [1, 0, 0, 0x10, 0, 0, 0, 0x50];

// A head with no states.
const NO_STATES: [u8; 8] = [0, 0, 0, 0x10, 0, 0, 0, 0x50];

fn fault(reason: Reason, place: usize) -> Result<(), CardFault> {
    Err(CardFault {
        word: WordFault { reason, place },
    })
}

// What reading the first bytes of a file tells.
fn told(heap: Global, bytes: &[u8]) -> Result<Result<(), CardFault>, Fail> {
    let mut card = WrittenCard::new(heap)?;
    Ok(card.read_bytes(bytes))
}

// Action 0 leads from state 0 to state 1: line word 20000001.
#[test]
fn words_low_byte_first(rt: HostRuntime) -> Result<(), Fail> {
    let mut card = WrittenCard::new(rt.alloc())?;
    assert_eq!(rt;
        card.read_bytes(&[2, 0, 1, 0x10, 1, 0, 0, 0x20, 0, 0, 0, 0x50]),
        Ok(())
    );
    assert!(rt; card.count() == 2);
    assert_eq!(rt; card.visible(0, 0).bits(), 0b10);
    Ok(())
}

// One to three bytes before an end are a missing word, after an end they follow it; an earlier fault is told first.
#[test]
fn leftover_bytes(rt: HostRuntime) -> Result<(), Fail> {
    let cases: [(&[u8], Result<(), CardFault>); 10] = [
        (&[], fault(Reason::Missing, 0)),
        (&[1], fault(Reason::Missing, 0)),
        (&[1, 0, 0, 0x10, 0], fault(Reason::Missing, 1)),
        (&[1, 0, 0, 0x10, 0, 0], fault(Reason::Missing, 1)),
        (&[1, 0, 0, 0x10, 0, 0, 0], fault(Reason::Missing, 1)),
        (
            &[1, 0, 0, 0x10, 0, 0, 0, 0x50, 7],
            fault(Reason::Trailing, 2),
        ),
        (
            &[1, 0, 0, 0x10, 0, 0, 0, 0x50, 0, 0],
            fault(Reason::Trailing, 2),
        ),
        (
            &[1, 0, 0, 0x10, 0, 0, 0, 0x50, 0, 0, 0],
            fault(Reason::Trailing, 2),
        ),
        (&[0, 0, 0, 0x10, 0, 0, 0, 0x50, 9], fault(Reason::Range, 0)),
        (&BLANK, Ok(())),
    ];
    for (bytes, wanted) in cases {
        assert_eq!(rt; told(rt.alloc(), bytes)?, wanted, "{bytes:?}");
    }
    Ok(())
}

// A passing state is no word of a card.
#[test]
fn passing_states_in_files(rt: HostRuntime) -> Result<(), Fail> {
    let bytes = [1, 0, 0, 0x10, 0, 0, 0, 0x40, 0, 0, 0, 0x50];
    assert_eq!(rt; told(rt.alloc(), &bytes)?, fault(Reason::Kind, 1));
    let mut test = WrittenTest::new(rt.alloc())?;
    assert_eq!(rt; test.read_bytes(&bytes), Ok(()));
    Ok(())
}

// The left file's fault comes first, and a fault leaves both cards as they stood.
#[test]
fn two_sides(rt: HostRuntime) -> Result<(), Fail> {
    let mut left = WrittenCard::new(rt.alloc())?;
    let mut right = WrittenCard::new(rt.alloc())?;
    let two = [2, 0, 0, 0x10, 0, 0, 0, 0x50];
    assert_eq!(rt; read_sides(&mut left, &mut right, &two, &two), Ok(()));
    assert!(rt; left.count() == 2 && right.count() == 2);
    let card = CardFault {
        word: WordFault {
            reason: Reason::Range,
            place: 0,
        },
    };
    assert_eq!(rt;
        read_sides(&mut left, &mut right, &NO_STATES, &[]),
        Err(SideFault::Left(LeftFault { card }))
    );
    assert_eq!(rt;
        read_sides(&mut left, &mut right, &BLANK, &NO_STATES),
        Err(SideFault::Right(RightFault { card }))
    );
    assert!(rt; left.count() == 2 && right.count() == 2);
    Ok(())
}
