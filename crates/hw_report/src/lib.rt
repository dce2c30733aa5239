//! The text of a report of a failing check: what was done and where, its call chain, and what was found. The main call is
//! [`report_text`]; [`chain_text`] gives the lines of a call chain alone, as other closing texts show them too.
#![tactic(auto)]

mod access;
mod found;
mod report;
mod sites;

pub use report::report_text;
pub use sites::chain_text;

#[cfg(test)]
mod tests;
