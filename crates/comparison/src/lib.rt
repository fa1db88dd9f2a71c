// The comparison of two systems: its calls, what they promise, and the law of its exploration.
#![tactic(auto)]

pub mod answer;
pub mod calls;
pub mod comparison;
mod exploration;
mod exploring;
mod judging;
pub mod laws;
mod pair;
pub mod refusal;
pub mod report;
mod row;
mod rows;
mod sides;
