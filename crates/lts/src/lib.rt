// Labelled transition systems: sets of states and actions, and the interface that every kind of system and test meets.
#![tactic(auto)]

pub mod members;
pub mod sets;
pub mod system;
pub mod word;
