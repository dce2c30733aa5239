//! Global variables and constants in memory: their places, their tags, and their first bytes. The main calls are
//! [`layout`], which gives what a module's globals need of memory, and [`load`], which puts them there. The machine's
//! definitions use those of this crate, whose laws and examples are here too.
#![tactic(auto)]

mod descriptor;
mod examples;
mod laws;
mod loading;
mod places;

pub use descriptor::Descriptor;
pub use examples::globals_by_example;
pub use laws::globals_follow_each_other;
pub use loading::{Descriptors, global_number, load};
pub use places::{global_size, layout, rounded_size};
