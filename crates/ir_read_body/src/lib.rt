//! The bodies of functions as they are spelled: blocks, instructions and terminators, each with the names, types and
//! constants that it spells. Its main call is `read_body`, and `function_body` reads a body among
//! other things; the layers above rely on them that exactly the bodies of the grammar are read, and that a fault is at the
//! first token with which nothing is derived, or with which something is derived of more than 64 levels only.
#![tactic(auto)]

mod adding;
mod atomics;
mod blocks;
mod bodies;
mod body;
mod calls;
mod endings;
mod instructions;
mod laws;
mod memory;
mod operands;
mod phis;
mod terminators;

pub use blocks::function_body;
pub use body::{Body, RawFunction, read_body};
pub use laws::bodies_are_derived;

#[cfg(test)]
mod tests;
