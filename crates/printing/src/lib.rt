// Text that people read.
#![tactic(auto)]

mod answers;
pub mod cards_shown;
pub mod experiments_shown;
mod numbers;
pub mod systems_shown;
pub mod traces_shown;
