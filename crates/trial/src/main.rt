// Tries generated cases, of which another implementation told the answers, and counts how many agree; and tries some sizes at the edge of what has room.
#![tactic(auto)]

mod calls;
mod reading;
mod sizes;
mod telling;
mod test_words;

use anyhow::Result;
use std::alloc::Global;
use std::fs;
use telling::told;

// How many differences of a file are printed.
const MOST_PRINTED: usize = 10;

// The sorts of cases, each in a file of its own.
const SORTS: [&str; 6] = ["line", "experiment", "shown", "led", "piles", "calls"];

// How a case differs, if it does: what is told is not what is wanted, or nothing can be told.
fn difference(heap: Global, case: &str) -> Result<Option<String>> {
    let parts: Vec<&str> = case.split('\t').collect(heap)?;
    let [sort, kind, handed @ .., wanted] = parts.as_slice() else {
        return Ok(Some(format!(in heap; "no case")?));
    };
    match told(heap, sort, handed) {
        Ok(text) if text.as_str() == *wanted => Ok(None),
        Ok(text) => Ok(Some(format!(in heap; "{kind}: wanted {wanted} told {text}")?)),
        Err(refusal) => Ok(Some(format!(in heap; "{kind}: wanted {wanted} not tried: {refusal}")?)),
    }
}

// Tries the cases of a file, and prints how many they are and how many agree.
fn try_file(rt: &HostRuntime, sort: &str) -> Result<()> {
    let text = fs::read_to_string(rt, format!(in rt.alloc(); "{sort}.txt")?)?;
    let mut cases = 0usize;
    let mut agree = 0usize;
    let mut printed = 0usize;
    for case in text.as_str().lines() {
        cases = cases.saturating_add(1);
        match difference(rt.alloc(), case)? {
            None => agree = agree.saturating_add(1),
            Some(difference) if printed < MOST_PRINTED => {
                printed += 1;
                println!(rt; "{sort} case {cases}, {difference}")?;
            }
            Some(_) => {}
        }
    }
    println!(rt; "{sort}: {cases} cases, {agree} agree")?;
    Ok(())
}

fn run(rt: &HostRuntime) -> Result<()> {
    sizes::run(rt)?;
    for sort in SORTS {
        try_file(rt, sort)?;
    }
    Ok(())
}

fn main(rt: HostRuntime) -> Result<()> {
    run(&rt)
}
