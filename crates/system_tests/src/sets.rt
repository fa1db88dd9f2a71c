// Sets of states and of actions, the two instances of one generic set: each has its test.
use lts::members::Members;
use lts::sets::{ActionSet, StateSet};
use std::alloc::AllocError;
use std::process::Abort;

fn check_members(rt: &impl Abort, members: Members, expected: &[usize]) {
    assert!(rt; members.eq(expected.iter().copied()));
}

#[test]
fn states(rt: HostRuntime) {
    let mut set = StateSet::empty();
    assert!(rt; set.is_empty());
    assert_eq!(rt; set.insert(63), true);
    assert_eq!(rt; set.insert(0), true);
    assert_eq!(rt; set.insert(63), false);
    assert_eq!(rt; set.insert(64), false);
    assert_eq!(rt; set.bits(), 0x8000_0000_0000_0001);
    assert_eq!(rt; set.len(), 2);
    assert!(rt; !set.is_empty());
    assert!(rt; set.contains(0));
    assert!(rt; set.contains(63));
    assert!(rt; !set.contains(1));
    assert!(rt; !set.contains(64));
    check_members(&rt, set.members(), &[0, 63]);
    let both = set.union(StateSet::from_bits(0b110));
    check_members(&rt, both.members(), &[0, 1, 2, 63]);
}

#[test]
fn actions(rt: HostRuntime) {
    let mut set = ActionSet::empty();
    assert!(rt; set.is_empty());
    assert_eq!(rt; set.insert(31), true);
    assert_eq!(rt; set.insert(0), true);
    assert_eq!(rt; set.insert(31), false);
    assert_eq!(rt; set.insert(32), false);
    assert_eq!(rt; set.bits(), 0x8000_0001);
    assert!(rt; !set.is_empty());
    assert!(rt; set.contains(0));
    assert!(rt; set.contains(31));
    assert!(rt; !set.contains(1));
    assert!(rt; !set.contains(32));
    check_members(&rt, set.members(), &[0, 31]);
    let both = set.union(ActionSet::from_bits(0b110));
    check_members(&rt, both.members(), &[0, 1, 2, 31]);
}

// Of the numbers 0 to 2: the even ones, and those above 0.
#[test]
fn two_sets(rt: HostRuntime) {
    let even = ActionSet::from_bits(0b101);
    let above = ActionSet::from_bits(0b110);
    assert_eq!(rt; even.intersection(above).bits(), 0b100);
    assert!(rt; !even.is_within(above));
    assert!(rt; ActionSet::from_bits(0b100).is_within(above));
    assert!(rt; ActionSet::empty().is_within(even));
    assert_eq!(rt; even.complement().bits(), 0xFFFF_FFFA);
    assert_eq!(rt;
        StateSet::from_bits(0b101).complement().bits(),
        0xFFFF_FFFF_FFFF_FFFA
    );
}

// Each kind of set shows itself under its own name, not under that of the generic one.
#[test]
fn shown_by_kind(rt: HostRuntime) -> Result<(), AllocError> {
    let states = StateSet::from_bits(5);
    let actions = ActionSet::from_bits(6);
    let text = format!(in rt.alloc(); "{states:?} {actions:?}")?;
    assert_eq!(rt; text.as_str(), "StateSet { bits: 5 } ActionSet { bits: 6 }");
    Ok(())
}
