// Text that people read, as docs/FORMAT.md gives it.
use crate::words::{DAMAGED, EVENING, file};
use input::read_start;
use printing::cards_shown::file_text;
use printing::traces_shown::trace_text;
use std::alloc::Global;
use std::test::*;

// The text of the file of these words, and of where the trace leads.
fn shown(words: &[u32], heap: Global) -> Result<String, Fail> {
    let bytes = file(words, heap)?;
    Ok(file_text(heap, bytes.as_slice())?)
}

fn traced(words: &[u32], trace: &[u8], heap: Global) -> Result<String, Fail> {
    let bytes = file(words, heap)?;
    Ok(trace_text(heap, bytes.as_slice(), trace)?)
}

#[test]
fn good_file(rt: HostRuntime) -> Result<(), Fail> {
    let text = shown(&EVENING, rt.alloc())?;
    assert_eq!(rt;
        text.as_str(),
        "states 4 start 0 lines 4\n0-0-1\n0-0-2\n1-1-3\n2-2-3\nwords 10040004 20000001 20000002 20000843 20001083 50000000\n"
    );
    Ok(())
}

#[test]
fn damaged_file(rt: HostRuntime) -> Result<(), Fail> {
    let text = shown(&DAMAGED, rt.alloc())?;
    assert_eq!(rt; text.as_str(), "FAULT 3 at 2\n");
    let trace = traced(&DAMAGED, &[0], rt.alloc())?;
    assert_eq!(rt; trace.as_str(), "FAULT 3 at 2\n");
    Ok(())
}

// A file that is missing is read as an empty one.
#[test]
fn missing_file(rt: HostRuntime) -> Result<(), Fail> {
    let mut buffer = [0; 8];
    let count = read_start(&rt, "no_such_folder/missing.card", &mut buffer);
    assert_eq!(rt; count, 0);
    let text = file_text(rt.alloc(), &buffer[..count])?;
    assert_eq!(rt; text.as_str(), "FAULT 1 at 0\n");
    Ok(())
}

// States 1 and 2 are stable, and offer action 1 and action 2.
#[test]
fn trace_of_a_file(rt: HostRuntime) -> Result<(), Fail> {
    let text = traced(&EVENING, &[0], rt.alloc())?;
    assert_eq!(rt;
        text.as_str(),
        "trace 0\nstates 1 2\nconvergent yes\naccepts 1\naccepts 2\n"
    );
    let nowhere = traced(&EVENING, &[0, 255], rt.alloc())?;
    assert_eq!(rt; nowhere.as_str(), "trace 0 255\nstates -\nconvergent yes\n");
    Ok(())
}

// The only state has a silent transition to itself, so the card is not convergent, and nothing more is told.
#[test]
fn divergent_file(rt: HostRuntime) -> Result<(), Fail> {
    let text = traced(&[0x1001_0001, 0x3000_0000, 0x5000_0000], &[7], rt.alloc())?;
    assert_eq!(rt; text.as_str(), "trace 7\nstates -\nconvergent no\n");
    Ok(())
}
