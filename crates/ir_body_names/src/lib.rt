//! What the names in the body of a function mean: its parameters, blocks and results, which share one set of names and one
//! counter, and the functions and debug locations that it uses. The main call is `beside_body`, which gives the first fault of
//! a name in a body. The layer above takes it for the fault of a text.
#![tactic(auto)]

mod body_faults;
mod counters;
mod definitions;
mod keys;
mod names;
mod uses;

pub use body_faults::{beside_body, local_place, node_place};
pub use definitions::{Definition, defines_register, definitions_of, instructions_of};
pub use keys::definition_keys;
pub use names::Names;
pub use uses::{is_debug_location, items_from};
