//! A whole run of instrumented code by the machine: the loop over its steps, the bytes that it prints, and the closing text.
#![tactic(auto)]

mod closing;
mod ends;
mod gathering;
mod job;
mod steps;

pub use closing::{closing_text, spent_line};
pub use ends::{Gathered, RunEnd, StepsMade};
pub use job::run_gathered;
pub use steps::run_steps;

#[cfg(test)]
mod tests;
