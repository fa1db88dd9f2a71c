// Piles of layers that are chosen while a program runs.
#![tactic(auto)]

pub mod lowest;
pub mod pile;
