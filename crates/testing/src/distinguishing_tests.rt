// Distinguishing tests worked out by hand.
use crate::distinguishing::{DistinguishingTest, TraceFault};
use crate::ground::Ground;
use lts::sets::ActionSet;
use lts::system::{Lts, Test};

// After action 0 it needs action 1 to pass, and before that it can pass in silence.
#[test]
fn offer_on_one_action(rt: HostRuntime) {
    let mut test = DistinguishingTest::new();
    assert_eq!(rt;
        test.fill(Ground::Offer(ActionSet::from_bits(0b10)), &[0]),
        Ok(())
    );
    assert_eq!(rt; test.count(), 3);
    assert_eq!(rt; test.start(), 0);
    assert_eq!(rt; test.visible(0, 0).bits(), 0b10);
    assert_eq!(rt; test.visible(1, 1).bits(), 0b100);
    assert!(rt; test.visible(0, 1).is_empty());
    assert!(rt; test.visible(1, 0).is_empty());
    assert!(rt; test.visible(2, 1).is_empty());
    assert_eq!(rt; test.hidden(0).bits(), 0b100);
    assert!(rt; test.hidden(1).is_empty());
    assert!(rt; test.hidden(2).is_empty());
    assert!(rt; test.passes(2));
    assert!(rt; !test.passes(0) && !test.passes(1) && !test.passes(3));
}

// On the same trace, Reach has the silent step only after it, and Settle has one everywhere.
#[test]
fn reach_and_settle_on_one_action(rt: HostRuntime) {
    let mut test = DistinguishingTest::new();
    assert_eq!(rt; test.fill(Ground::Reach, &[0]), Ok(()));
    assert!(rt; test.hidden(0).is_empty());
    assert_eq!(rt; test.hidden(1).bits(), 0b100);
    assert!(rt; test.visible(1, 1).is_empty());
    assert_eq!(rt; test.fill(Ground::Settle, &[0]), Ok(()));
    assert_eq!(rt; test.hidden(0).bits(), 0b100);
    assert_eq!(rt; test.hidden(1).bits(), 0b100);
    assert!(rt; test.hidden(2).is_empty());
    assert_eq!(rt; test.visible(0, 0).bits(), 0b10);
}

// As it is made: two states, and a silent step from the one to the other, which passes.
#[test]
fn settle_on_nothing(rt: HostRuntime) {
    let test = DistinguishingTest::new();
    assert_eq!(rt; test.count(), 2);
    assert_eq!(rt; test.hidden(0).bits(), 0b10);
    assert!(rt; test.hidden(1).is_empty());
    assert!(rt; test.visible(0, 0).is_empty());
    assert!(rt; test.passes(1) && !test.passes(0));
}

// The longest trace fills all 64 states; one action more is refused.
#[test]
fn longest_trace(rt: HostRuntime) {
    let mut test = DistinguishingTest::new();
    assert_eq!(rt; test.fill(Ground::Settle, &[5; 62]), Ok(()));
    assert_eq!(rt; test.count(), 64);
    assert_eq!(rt; test.visible(61, 5).bits(), 0x4000_0000_0000_0000);
    assert!(rt; test.visible(62, 5).is_empty());
    assert_eq!(rt; test.hidden(62).bits(), 0x8000_0000_0000_0000);
    assert!(rt; test.passes(63));
    assert_eq!(rt;
        test.fill(Ground::Reach, &[6; 63]),
        Err(TraceFault::TooLong)
    );
    assert_eq!(rt; TraceFault::TooLong.number(), 12);
    assert_eq!(rt; test.count(), 64);
    assert_eq!(rt; test.visible(0, 5).bits(), 0b10);
    assert_eq!(rt; test.hidden(0).bits(), 0x8000_0000_0000_0000);
}

// What is no action leads nowhere, in a trace as elsewhere.
#[test]
fn no_action_in_the_trace(rt: HostRuntime) {
    let mut test = DistinguishingTest::new();
    assert_eq!(rt; test.fill(Ground::Reach, &[31, 32]), Ok(()));
    assert_eq!(rt; test.count(), 4);
    assert_eq!(rt; test.visible(0, 31).bits(), 0b10);
    assert!(rt; test.visible(1, 32).is_empty());
    assert!(rt; test.visible(1, 0).is_empty());
    assert_eq!(rt; test.hidden(2).bits(), 0b1000);
}
