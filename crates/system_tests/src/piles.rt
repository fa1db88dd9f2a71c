// Sets are written as words: bit q for state q.
use layers::counter::{Counter, CounterFault};
use layers::hide::Hide;
use layers::parallel::{FitFault, Parallel, fit};
use lts::sets::ActionSet;
use lts::system::Lts;
use printing::systems_shown::system_text;
use std::array;
use std::test::*;

// Where the actions 0 to 3 and the silent transitions lead from the state.
fn sets<S: Lts>(system: &S, state: usize) -> [u64; 5] {
    [
        system.visible(state, 0).bits(),
        system.visible(state, 1).bits(),
        system.visible(state, 2).bits(),
        system.visible(state, 3).bits(),
        system.hidden(state).bits(),
    ]
}

// The same for the states below N.
fn table<S: Lts, const N: usize>(system: &S) -> [[u64; 5]; N] {
    array::from_fn(|state| sets(system, state))
}

// A counter that takes in by 0 and hands over by 1 to one that hands out by 2; the hand-over is hidden.
pub(crate) fn hand_over() -> Result<Hide<Parallel<Counter, Counter>>, CounterFault> {
    let both = Parallel::new(
        Counter::new(1, 0, 1)?,
        Counter::new(1, 1, 2)?,
        ActionSet::from_bits(2),
    );
    Ok(Hide::new(both, ActionSet::from_bits(2)))
}

#[test]
fn two_counters(rt: HostRuntime) -> Result<(), Fail> {
    let pile = hand_over()?;
    assert!(rt; pile.count() == 4 && pile.start() == 0);
    assert_eq!(rt;
        table(&pile),
        [
            [4, 0, 0, 0, 0],
            [8, 0, 1, 0, 0],
            [0, 0, 0, 0, 2],
            [0, 0, 4, 0, 0],
            [0, 0, 0, 0, 0],
        ]
    );
    for state in 0..4 {
        for action in 4..32 {
            assert!(rt; pile.visible(state, action).is_empty());
        }
    }
    Ok(())
}

// A third counter takes over by 2 and hands out by 3.
#[test]
fn three_layers(rt: HostRuntime) -> Result<(), Fail> {
    let three = Parallel::new(
        hand_over()?,
        Counter::new(1, 2, 3)?,
        ActionSet::from_bits(4),
    );
    let pile = Hide::new(three, ActionSet::from_bits(4));
    assert_eq!(rt;
        table(&pile),
        [
            [16, 0, 0, 0, 0],
            [32, 0, 0, 1, 0],
            [64, 0, 0, 0, 2],
            [128, 0, 0, 4, 0],
            [0, 0, 0, 0, 4],
            [0, 0, 0, 16, 8],
            [0, 0, 0, 0, 32],
            [0, 0, 0, 64, 0],
        ]
    );
    Ok(())
}

// State p of three with state q of two is 2 * p + q.
#[test]
fn sides_of_different_size(rt: HostRuntime) -> Result<(), Fail> {
    let pile = Parallel::new(
        Counter::new(2, 0, 1)?,
        Counter::new(1, 2, 3)?,
        ActionSet::empty(),
    );
    assert_eq!(rt; sets(&pile, 2), [16, 1, 8, 0, 0]);
    assert_eq!(rt; sets(&pile, 5), [0, 8, 0, 16, 0]);
    Ok(())
}

// What is hidden below is no longer there to be shared: it moves its own side, and the other side waits.
#[test]
fn hidden_below_and_shared_above(rt: HostRuntime) -> Result<(), Fail> {
    let below = Hide::new(Counter::new(1, 0, 1)?, ActionSet::from_bits(2));
    let pile = Parallel::new(below, Counter::new(1, 1, 2)?, ActionSet::from_bits(2));
    assert_eq!(rt; sets(&pile, 0), [4, 0, 0, 0, 0]);
    assert_eq!(rt; sets(&pile, 2), [0, 0, 0, 0, 1]);
    Ok(())
}

#[test]
fn one_action_in_and_out(rt: HostRuntime) -> Result<(), Fail> {
    let counter = Counter::new(2, 3, 3)?;
    assert_eq!(rt;
        table(&counter),
        [[0, 0, 0, 2, 0], [0, 0, 0, 5, 0], [0, 0, 0, 2, 0]]
    );
    Ok(())
}

#[test]
fn counters_refused(rt: HostRuntime) -> Result<(), Fail> {
    assert!(rt; Counter::new(63, 31, 31).is_ok());
    assert_eq!(rt; Counter::new(64, 0, 1).err(), Some(CounterFault::Capacity));
    assert_eq!(rt; Counter::new(1, 32, 1).err(), Some(CounterFault::Action));
    assert_eq!(rt; Counter::new(1, 0, 32).err(), Some(CounterFault::Action));
    assert!(rt; CounterFault::Capacity.number() == 3 && CounterFault::Action.number() == 3);
    Ok(())
}

// State (7, 7) of 8 * 8 states moves to (6, 7) and to (7, 6).
#[test]
fn largest_that_fits(rt: HostRuntime) -> Result<(), Fail> {
    let eight = Counter::new(7, 0, 1)?;
    assert_eq!(rt; fit(&eight, &eight), Ok(()));
    let square = Parallel::new(eight, eight, ActionSet::empty());
    assert_eq!(rt; sets(&square, 63), [0, (1 << 55) + (1 << 62), 0, 0, 0]);
    Ok(())
}

// 13 * 5 states do not fit: the blank system.
#[test]
fn oversized_is_blank(rt: HostRuntime) -> Result<(), Fail> {
    let thirteen = Counter::new(12, 0, 1)?;
    let five = Counter::new(4, 0, 1)?;
    assert_eq!(rt; fit(&thirteen, &five), Err(FitFault::TooLarge));
    assert_eq!(rt; FitFault::TooLarge.number(), 7);
    let blank = Parallel::new(thirteen, five, ActionSet::empty());
    assert!(rt; blank.count() == 1 && blank.start() == 0);
    assert_eq!(rt; sets(&blank, 0), [0; 5]);
    Ok(())
}

// State 2 * p + q stands for p in the first counter and q in the second: the first takes in by 0, the second hands out by 2, and the hand-over from 2 to 1 is silent.
#[test]
fn printed(rt: HostRuntime) -> Result<(), Fail> {
    let text = system_text(rt.alloc(), &hand_over()?)?;
    assert_eq!(rt;
        text.as_str(),
        "states 4 start 0\n0-0-2\n1-0-3\n1-2-0\n3-2-2\n2-h-1\n"
    );
    Ok(())
}
