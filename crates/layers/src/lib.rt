// Ready-made systems, and layers over systems.
#![tactic(auto)]

pub mod counter;
pub mod hide;
pub mod parallel;
