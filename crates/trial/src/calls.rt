// Lists of calls of a comparison.
use crate::telling::bytes;
use crate::test_words::test_words;
use anyhow::{Context, Result, bail};
use cards::written_card::WrittenCard;
use comparison::answer::Progress;
use comparison::comparison::Comparison;
use comparison::refusal::Refusal;
use printing::traces_shown::ActionsShown;
use reports::lines::answer_line;
use std::alloc::{AllocError, Global};
use testing::distinguishing::DistinguishingTest;

fn refused(heap: Global, refusal: Refusal) -> Result<String> {
    let number = refusal.number();
    Ok(format!(in heap; "REFUSED {number}\n")?)
}

// What begin, advance and ask tell: the printed line without its track.
fn progress_text(heap: Global, told: Result<Progress, Refusal>) -> Result<String> {
    let progress = match told {
        Ok(progress) => progress,
        Err(refusal) => return refused(heap, refusal),
    };
    let line = answer_line(heap, progress, &[])?;
    match line.as_str().split_once(" track") {
        Some((told, _)) => Ok(format!(in heap; "{told}\n")?),
        None => Ok(line),
    }
}

// Copying into a buffer with so much room, whose bytes were 255 before.
fn copied(heap: Global, comparison: &Comparison, room: usize) -> Result<String> {
    let mut buffer = vec![in heap; 255u8; room]?;
    match comparison.copy(&mut buffer) {
        Ok(count) => {
            let bytes = ActionsShown(buffer.as_slice());
            Ok(format!(in heap; "COPIED {count} buffer{bytes}\n")?)
        }
        Err(refusal) => refused(heap, refusal),
    }
}

// The distinguishing test by its words.
fn test_text(heap: Global, comparison: &Comparison) -> Result<String> {
    let mut test = DistinguishingTest::new();
    match comparison.fill_test(&mut test) {
        Ok(()) => test_words(heap, &test),
        Err(refusal) => refused(heap, refusal),
    }
}

// Makes a call, and tells the reply as a line.
fn reply(heap: Global, comparison: &mut Comparison, call: &str) -> Result<String> {
    let words: Vec<&str> = call.split(' ').collect(heap)?;
    match words.as_slice() {
        ["begin", limit] => progress_text(heap, comparison.begin(limit.parse()?)),
        ["advance", count] => progress_text(heap, comparison.advance(count.parse()?)),
        ["ask"] => progress_text(heap, Ok(comparison.ask())),
        ["copy", room] => copied(heap, comparison, room.parse()?),
        ["test"] => test_text(heap, comparison),
        _ => bail!("no such call"),
    }
}

fn card(heap: Global, text: &str) -> Result<WrittenCard> {
    let mut card = WrittenCard::new(heap)?;
    let bytes = bytes(heap, text)?;
    card.read_bytes(bytes.as_slice())?;
    Ok(card)
}

// The replies to calls that each end with a semicolon, of a comparison of two good cards.
pub(crate) fn replies(heap: Global, left: &str, right: &str, calls: &str) -> Result<String> {
    let left = card(heap, left)?;
    let right = card(heap, right)?;
    let Ok(mut comparison) = Comparison::open(heap, left, right) else {
        return Err(AllocError.into());
    };
    let calls = calls.strip_suffix(';').context("the last call has no end")?;
    let mut text = String::new(heap);
    for call in calls.split(';') {
        text.push_str(reply(heap, &mut comparison, call)?.as_str())?;
    }
    Ok(text)
}
