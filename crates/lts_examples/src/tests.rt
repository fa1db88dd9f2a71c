// Examples worked out by hand.
ghost use Rattle.std.specs.Prelude.{◌≡◌, ℕ, ◌+◌, ◌^◌, ◌<◌, ◌≤◌, ◌&&◌, if◌then◌else◌, bit_and, nat_lt, slice_index, slice_index_or, []};
ghost use Rattle.std.proofs.lemmas.Nat.{and_le_r};
ghost use Rattle.std.proofs.Common.{arith, pow_pos};
ghost use Rattle.std.proofs.lemmas.Bool.{cond_both, cond-false, and_left, and_right, le-ltb};

use lts::sets::StateSet;
use lts::system::Lts;
use std::alloc::AllocError;
use std::array;
use std::test::Fail;
use traces::compile::{compile, compile_lent};
use traces::family::Family;
use traces::macrostates::{macrostate_after, minimal_after};

// A system with actions 0 to 2; a row of three sets for each state. Arrays of fixed length: an example is written out whole, and needs no heap.
#[derive(Drop)]
struct Sample {
    count: usize,
    states: u64,
    hidden: [u64; 64],
    visible: [[u64; 3]; 64],
    ghost some: { 1 ≤ count },
    ghost few: { count ≤ 64 },
    ghost own: { states < 2 ^ count },
}

impl Lts for Sample {
    ghost meaning = { λ x. record { count = x.count; start = 0; visible = λ p a. (if nat_lt p x.count && nat_lt a 3 then bit_and (slice_index (slice_index_or x.visible p []) a) x.states else 0); hidden = λ p. (if nat_lt p x.count then bit_and (slice_index x.hidden p) x.states else 0) } };

    ghost lawful = { λ x.
        record {
          nonempty = x.some;
          starts = x.some;
          visible_below = λ p a. cond_both (nat_lt p x.count && nat_lt a 3) _ 0 (λ (s : ℕ). s < 2 ^ x.count) (λ e. omega (arith, and_le_r (slice_index (slice_index_or x.visible p []) a) x.states, x.own)) (λ e. pow_pos x.count);
          hidden_below = λ p. cond_both (nat_lt p x.count) _ 0 (λ (s : ℕ). s < 2 ^ x.count) (λ e. omega (arith, and_le_r (slice_index x.hidden p) x.states, x.own)) (λ e. pow_pos x.count);
          visible_outside = λ p a b. cond-false _ _ _ (and_left (nat_lt p x.count) (nat_lt a 3) (le-ltb p x.count b));
          hidden_outside = λ p b. cond-false _ _ _ (le-ltb p x.count b);
          no_action = λ p a b. cond-false _ _ _ (and_right (nat_lt p x.count) (nat_lt a 3) (le-ltb a 3 (omega arith)));
        } };

    ghost small = { λ x. x.few };

    fn count(&self) -> usize {
        self.count
    }

    fn start(&self) -> usize {
        0
    }

    fn visible(&self, state: usize, action: usize) -> StateSet {
        if state < self.count && action < 3 {
            StateSet::from_bits(self.visible[state][action] & self.states)
        } else {
            StateSet::empty()
        }
    }

    fn hidden(&self, state: usize) -> StateSet {
        if state < self.count {
            StateSet::from_bits(self.hidden[state] & self.states)
        } else {
            StateSet::empty()
        }
    }
}

// A system with silent transitions alone.
fn silent(count: usize, states: u64, hidden: [u64; 64]) -> Sample
    requires some { 1 ≤ count }
    requires few { count ≤ 64 }
    requires own { states < 2 ^ count }
{
    Sample {
        count,
        states,
        hidden,
        visible: [[0; 3]; 64],
    }
}

// One state with a silent transition to itself may run silently for ever at once.
#[test]
fn silent_loop(rt: HostRuntime) -> Result<(), Fail> {
    let mut hidden = [0; 64];
    hidden[0] = 1;
    let at = compile_lent(&silent(1, 1, hidden), rt.alloc())?.first();
    assert_eq!(rt; at.states.bits(), 1);
    assert!(rt; !at.convergent);
    Ok(())
}

// 64 states, each with a silent transition to the next: the system may be in any of them, and none is divergent.
#[test]
fn silent_chain(rt: HostRuntime) -> Result<(), Fail> {
    let hidden = array::from_fn(|state| if state < 63 { 2 << state } else { 0 });
    let at = compile_lent(&silent(64, u64::MAX, hidden), rt.alloc())?.first();
    assert_eq!(rt; at.states.bits(), u64::MAX);
    assert!(rt; at.convergent);
    Ok(())
}

// States 3 and 4 are a silent ring, 0 to 2 lead there, and 5 does not: all but 5 are divergent.
#[test]
fn silent_ring(rt: HostRuntime) -> Result<(), Fail> {
    let mut hidden = [0; 64];
    hidden[0] = 2;
    hidden[1] = 4;
    hidden[2] = 8;
    hidden[3] = 16;
    hidden[4] = 8;
    let compiled = compile_lent(&silent(6, 63, hidden), rt.alloc())?;
    assert_eq!(rt; compiled.divergent_states().bits(), 31);
    assert_eq!(rt; compiled.silent_closure(2).bits(), 28);
    assert!(rt; !compiled.first().convergent);
    Ok(())
}

// The start has a silent transition to itself and action 0 to a state without one: not convergent after the action either, and no family is told.
#[test]
fn diverged_before(rt: HostRuntime) -> Result<(), Fail> {
    let mut hidden = [0; 64];
    hidden[0] = 1;
    let mut visible = [[0; 3]; 64];
    visible[0][0] = 2;
    let sample = Sample {
        count: 2,
        states: 3,
        hidden,
        visible,
    };
    let compiled = compile_lent(&sample, rt.alloc())?;
    let at = compiled.after(&[0]);
    assert_eq!(rt; at.states.bits(), 2);
    assert!(rt; !at.convergent);
    let mut family = Family::new(rt.alloc())?;
    assert!(rt; !compiled.acceptance_into(at, &mut family));
    assert!(rt; family.members().len() == 0);
    Ok(())
}

// State 0 has silent transitions to states 1 to 4, which offer {0}, {0, 1}, {1, 2} and {2}; it offers {1} itself and does not count. Each action leads back to state 0.
fn offers() -> Sample {
    let mut hidden = [0; 64];
    hidden[0] = 30;
    let mut visible = [[0; 3]; 64];
    visible[0][1] = 1;
    visible[1][0] = 1;
    visible[2][0] = 1;
    visible[2][1] = 1;
    visible[3][1] = 1;
    visible[3][2] = 1;
    visible[4][2] = 1;
    Sample {
        count: 5,
        states: 31,
        hidden,
        visible,
    }
}

// A trace that can be done, and two that cannot: nothing is offered after them, and they are convergent, since nothing runs for ever on the way.
#[test]
fn four_offers(rt: HostRuntime) -> Result<(), Fail> {
    let compiled = compile_lent(&offers(), rt.alloc())?;
    let mut family = Family::new(rt.alloc())?;
    assert!(rt; compiled.acceptance_into(compiled.after(&[1, 2]), &mut family));
    let members = family.members();
    assert!(rt; members.len() == 2);
    assert_eq!(rt; members[0].bits(), 1);
    assert_eq!(rt; members[1].bits(), 4);
    let nowhere = compiled.after(&[1, 3]);
    assert_eq!(rt; nowhere.states.bits(), 0);
    assert!(rt; nowhere.convergent);
    assert!(rt; compiled.acceptance_into(nowhere, &mut family));
    assert!(rt; family.members().is_empty());
    assert_eq!(rt; compiled.after(&[200]).states.bits(), 0);
    Ok(())
}

// Compiling keeps what the system means.
#[test]
fn compiled_by_value(rt: HostRuntime) -> Result<(), Fail> {
    let compiled = compile(offers(), rt.alloc()).map_err(|_| AllocError)?;
    assert!(rt; compiled.count() == 5 && compiled.start() == 0);
    assert_eq!(rt; compiled.visible(3, 2).bits(), 1);
    assert_eq!(rt; compiled.visible(4, 1).bits(), 0);
    assert_eq!(rt; compiled.hidden(0).bits(), 30);
    assert_eq!(rt; compiled.silent_closure(0).bits(), 31);
    Ok(())
}

#[test]
fn macrostate_of_any_system(rt: HostRuntime) -> Result<(), Fail> {
    let at = macrostate_after(&offers(), &[1, 2], rt.alloc())?;
    assert_eq!(rt; at.states.bits(), 31);
    assert!(rt; at.convergent);
    Ok(())
}

#[test]
fn minimal_sets_of_any_system(rt: HostRuntime) -> Result<(), Fail> {
    let family = minimal_after(&offers(), &[1, 2], rt.alloc())?;
    let members = family.members();
    assert!(rt; members.len() == 2);
    assert_eq!(rt; members[0].bits(), 1);
    assert_eq!(rt; members[1].bits(), 4);
    Ok(())
}
