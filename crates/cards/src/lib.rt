// Cards: systems and tests that are written down as words.
#![tactic(auto)]

mod bytes;
pub mod card_calls;
mod collecting;
mod display;
pub mod faults;
pub mod lines;
mod reading;
pub mod sides;
mod tables;
pub mod test_calls;
mod words;
mod writing;
pub mod written_card;
pub mod written_test;
