// Tests of the text that is printed: of a file, of a card beside a test, and of two cards.
#![tactic(auto)]

#[cfg(test)]
mod beside;
#[cfg(test)]
mod compared;
#[cfg(test)]
mod shown;
#[cfg(test)]
mod words;
