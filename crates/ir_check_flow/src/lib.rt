//! The flow of values in a module whose names are resolved: each use of a register has a definition on every path to it, and
//! phis have the entries that they need; and then the limits on what a module has. Its main call is `check`, which keeps the
//! module as a `Checked`; the layers above rely on it that a checked module has all that a run needs.
#![tactic(auto)]

mod answering;
mod bad_phis;
mod checked_module;
mod flow;
mod home;
mod homes;
mod laws;
mod limits;
mod numbers;
mod phis;
mod predecessors;
mod question;
mod questions;
mod spreading;
mod tables;
mod uses;
mod ways;

pub use checked_module::{Checked, check};
pub use flow::check_flow;
pub use laws::accepted_modules_can_be_run;
pub use numbers::{MOST_BLOCKS, MOST_FUNCTIONS, MOST_INSTRUCTIONS, MOST_NODES};
