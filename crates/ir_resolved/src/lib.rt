//! The law of functions whose names are resolved: each number in them names a thing that is there, blocks hold the instructions one
//! after the other, and registers have the types of what they hold. It has no code: its one call does nothing, and says this of
//! what a text spells. The layer above relies on it to promise the same of whole modules.
#![tactic(auto)]

mod laws;

pub use laws::functions_are_resolved;
