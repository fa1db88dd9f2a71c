// What is told of two card files: the printed line, and worked examples.
#![tactic(auto)]

pub mod examples;
pub mod lines;
