//! Where in the source an instruction is: the metadata nodes that a text keeps, read by `read_meta`, and chains of sites of
//! instructions, kept as numbers: the empty chain is 0, and every other one is an entry of a table, with its front site and
//! the number of the rest. Chains are a definition with its laws. `check_scopes` finds the first debug location of a module from
//! which a chain of scopes or of inlined calls never ends. `Sites` follows both from an instruction to its frames: a function,
//! file, line and column for its own location and for each call by which it was inlined.
#![tactic(auto)]

mod chains;
mod definitions;
mod examples;
mod fields;
mod frames;
mod laws;
mod locations;
mod nodes;
mod numbers;
mod scopes;
mod sites;
mod token_kinds;

pub use chains::Chains;
pub use examples::{chains_by_example, frames_by_example};
pub use frames::{Frame, Frames, Spot};
pub use laws::{
    chains_end_within_the_nodes, each_site_has_a_frame, equal_numbers_are_equal_chains,
    no_chain_is_cut_off, pushing_puts_a_site_in_front,
};
pub use nodes::{node_numbers, read_meta};
pub use scopes::check_scopes;
pub use sites::Sites;

#[cfg(test)]
mod node_tests;
#[cfg(test)]
mod scope_tests;
#[cfg(test)]
mod site_tests;
