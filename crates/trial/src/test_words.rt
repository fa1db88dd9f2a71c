// A test by the words that it is written as.
use anyhow::{Result, bail};
use cards::lines::{Head, Label, Line, Word};
use lts::sets::StateSet;
use lts::system::{Lts, Test};
use std::alloc::Global;

// Adds the lines with this label from a state to these states.
fn push_lines(words: &mut Vec<u32>, from: usize, label: Label, to: StateSet) -> Result<()> {
    for state in to.members() {
        let line = Line {
            from: u8::try_from(from)?,
            label,
            to: u8::try_from(state)?,
        };
        words.push(u32::from(line))?;
    }
    Ok(())
}

// The lines with an action, and then the silent ones.
fn line_words<T: Lts>(heap: Global, test: &T) -> Result<Vec<u32>> {
    let mut words = Vec::new(heap);
    for from in 0..test.count() {
        for action in 0..32u8 {
            push_lines(
                &mut words,
                from,
                Label::Action(action),
                test.visible(from, usize::from(action)),
            )?;
        }
    }
    for from in 0..test.count() {
        push_lines(&mut words, from, Label::Silent, test.hidden(from))?;
    }
    Ok(words)
}

pub(crate) fn test_words<T: Test>(heap: Global, test: &T) -> Result<String> {
    let lines = line_words(heap, test)?;
    let Ok(head) = u32::try_from(Head {
        lines: lines.len(),
        start: test.start(),
        states: test.count(),
    }) else {
        bail!("the test has too many lines");
    };
    let mut text = format!(in heap; "TEST {head:08X}")?;
    for word in lines.as_slice() {
        write!(text, " {word:08X}")?;
    }
    for state in 0..test.count() {
        if test.passes(state) {
            let word = u32::from(Word::Passing(u8::try_from(state)?));
            write!(text, " {word:08X}")?;
        }
    }
    let end = u32::from(Word::End);
    writeln!(text, " {end:08X}")?;
    Ok(text)
}
