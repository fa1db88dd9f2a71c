// Testing: why a trace splits two systems, and the theorems that tie traces to tests.
#![tactic(auto)]

pub mod distinguishing;
#[cfg(test)]
mod distinguishing_tests;
pub mod experiment;
pub mod ground;
mod joint_pairs;
mod offers;
pub mod passing;
mod reached_pairs;
mod searching;
pub mod splitting;
#[cfg(test)]
mod tests;
