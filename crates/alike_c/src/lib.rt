// What the libraries offer to C and to plain Rust. Each call puts its result into a buffer of its caller's.
#![tactic(auto)]

mod calls;
mod counters;
pub mod exports;
mod placing;
mod words;
