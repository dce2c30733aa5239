//! The functions of a module: bodies as they are spelled become blocks and instructions in which each register, block, type,
//! global variable and function is a number. The main call is `resolve`, which returns the first fault of a name in a body or
//! the function. The layer above relies on it that the function is exactly the one that `specs/Functions.antt` says.
#![tactic(auto)]

mod blocks;
mod bodies;
mod calls;
mod functions;
mod given;
mod instructions;
mod laws;
mod numbers;
mod operands;
mod operations;
mod operators;
mod resolver;
mod rows;
mod values;

pub use functions::{SpelledFunction, function_of, resolve};
pub use laws::functions_have_registers_and_variables;

#[cfg(test)]
mod tests;
