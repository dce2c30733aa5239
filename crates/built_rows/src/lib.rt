//! What the machine doesn't run yet of an accepted module. The main call is `unbuilt`, which returns the refusal of the first such
//! part of the text; the layer above relies on it that code without such parts is what the machine runs. The crate goes when the
//! machine runs all.
#![tactic(auto)]

mod laws;
mod table;

pub use laws::built_modules_can_be_run;
pub use table::unbuilt;

#[cfg(test)]
mod tests;
