//! The program as one call, `hwasan`: the command line, the order of work, the statuses and the closing texts. Its clauses say
//! what was written and why the call ended, for every behaviour of its environment, and that what is shown of a text is the run
//! of its module, of which the detection theorem holds. The program above makes the real environment and ends with the status
//! that this call returns.
#![tactic(auto)]

mod command;
mod decision;
mod delivery;
mod judging;
mod options;
mod top;
mod words;

pub use top::hwasan;
