//! The machine follows each step of the source program: in related states it makes the same step, and the states after it are
//! related; or it ends in the same way, or reports the violation exactly if the tag rule refuses it. Its functions do nothing
//! when they run: they carry the laws.
#![tactic(auto)]

mod laws;

pub use laws::{
    atomics_are_followed, loads_are_followed, register_steps_are_followed, steps_are_followed,
    stores_are_followed, strings_are_found,
};
