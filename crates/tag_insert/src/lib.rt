//! The instrumentation: a module's instructions become machine code with the tag work before the accesses that it belongs
//! to. The main call is `instrument`; the machine relies on it that the code is exactly the definition's.
#![tactic(auto)]

mod addition;
mod addresses;
mod checks;
mod code;
mod edges;
mod fields;
mod instrumenting;
mod operands;
mod places;
mod source;
mod types;

pub use instrumenting::instrument;
