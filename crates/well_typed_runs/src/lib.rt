//! Runs of accepted modules by the semantics of the source are never stuck, and each register that holds a value holds one of its
//! type. It has no code: its one call does nothing, and says this of the definitions of `ir_meaning`.
#![tactic(auto)]

mod laws;

pub use laws::accepted_modules_run_well;
