// What is told of a case.
use crate::calls::replies;
use crate::reading::pile;
use anyhow::{Result, bail};
use printing::cards_shown::file_text;
use printing::experiments_shown::experiment_text;
use printing::traces_shown::trace_text;
use reports::lines::{files_line, systems_line};
use std::alloc::Global;

// Bytes, each written as two digits to the base sixteen; a dash where there are none.
pub(crate) fn bytes(heap: Global, text: &str) -> Result<Vec<u8>> {
    if text == "-" {
        return Ok(Vec::new(heap));
    }
    Ok(hex::decode(heap, text)?)
}

// The line of two piles.
fn piles_line(heap: Global, left: &str, right: &str) -> Result<String> {
    Ok(systems_line(heap, pile(heap, left)?, pile(heap, right)?)?)
}

// The text that is told of a case, of this sort and with this handed over.
fn text(heap: Global, sort: &str, handed: &[&str]) -> Result<String> {
    match (sort, handed) {
        ("line", [left, right]) => {
            let left = bytes(heap, left)?;
            let right = bytes(heap, right)?;
            Ok(files_line(heap, left.as_slice(), right.as_slice())?)
        }
        ("experiment", [card, test]) => {
            let card = bytes(heap, card)?;
            let test = bytes(heap, test)?;
            Ok(experiment_text(heap, card.as_slice(), test.as_slice())?)
        }
        ("shown", [card]) => {
            let card = bytes(heap, card)?;
            Ok(file_text(heap, card.as_slice())?)
        }
        ("led", [card, trace]) => {
            let card = bytes(heap, card)?;
            let trace = bytes(heap, trace)?;
            Ok(trace_text(heap, card.as_slice(), trace.as_slice())?)
        }
        ("piles", [left, right]) => piles_line(heap, left, right),
        ("calls", [left, right, calls]) => replies(heap, left, right, calls),
        _ => bail!("no such sort of case"),
    }
}

// The same with each line ended by a semicolon, as the answers of the cases are written.
pub(crate) fn told(heap: Global, sort: &str, handed: &[&str]) -> Result<String> {
    let text = text(heap, sort, handed)?;
    let line = text
        .as_str()
        .chars()
        .map(|c| if c == '\n' { ';' } else { c })
        .collect(heap)?;
    Ok(line)
}
