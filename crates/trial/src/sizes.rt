// Sizes at the edge of what has room, worked out by hand.
use anyhow::Context;
use layers::counter::{Counter, CounterFault};
use layers::parallel::fit;
use lts::system::Lts;
use std::alloc::{AllocError, Global};
use testing::distinguishing::{DistinguishingTest, TraceFault};
use testing::ground::Ground;

// A system of so many states.
fn states(count: usize) -> Result<Counter, CounterFault> {
    Counter::new(count.saturating_sub(1), 0, 1)
}

// Whether two systems of so many states fit.
fn fit_line(rt: &HostRuntime, left: usize, right: usize) -> anyhow::Result<()> {
    print!(rt; "{left} x {right} states: ")?;
    match fit(&states(left)?, &states(right)?) {
        Ok(()) => println!(rt; "fit")?,
        Err(fault) => {
            let number = fault.number();
            println!(rt; "REFUSED {number}")?
        }
    }
    Ok(())
}

// Makes the test that of a trace of so many actions, all 0. It has two states more than that.
fn fill(
    heap: Global,
    test: &mut DistinguishingTest,
    length: usize,
) -> Result<Result<(), TraceFault>, AllocError> {
    let trace = vec![in heap; 0; length]?;
    Ok(test.fill(Ground::Reach, trace.as_slice()))
}

// An experiment of a system of so many states, and the test of a trace of so many actions.
fn experiment_line(rt: &HostRuntime, count: usize, length: usize) -> anyhow::Result<()> {
    let mut test = DistinguishingTest::new();
    fill(rt.alloc(), &mut test, length)??;
    let places = test.count();
    print!(rt; "{count} states beside a test of {places}: ")?;
    match test.is_passed_by(&states(count)?, rt.alloc()) {
        Ok(true) => println!(rt; "passed")?,
        Ok(false) => println!(rt; "not passed")?,
        Err(fault) => {
            let number = fault.number().context("memory is wanting")?;
            println!(rt; "REFUSED {number}")?
        }
    }
    Ok(())
}

// The test of a trace of so many actions.
fn trace_line(rt: &HostRuntime, length: usize) -> anyhow::Result<()> {
    let mut test = DistinguishingTest::new();
    print!(rt; "a trace of {length} actions: ")?;
    match fill(rt.alloc(), &mut test, length)? {
        Ok(()) => {
            let places = test.count();
            println!(rt; "a test of {places} states")?
        }
        Err(fault) => {
            let number = fault.number();
            println!(rt; "REFUSED {number}")?
        }
    }
    Ok(())
}

pub(crate) fn run(rt: &HostRuntime) -> anyhow::Result<()> {
    fit_line(rt, 8, 8)?;
    fit_line(rt, 13, 5)?;
    experiment_line(rt, 64, 30)?;
    experiment_line(rt, 64, 31)?;
    trace_line(rt, 62)?;
    trace_line(rt, 63)
}
