//! The machine code that the instrumentation makes of a module: flat code for numbers and machine registers, in which the
//! tag checks come before the accesses that they belong to. It has the types, and the instrumentation as a definition with
//! its laws.
#![tactic(auto)]

mod code_functions;
mod edges;
mod examples;
mod laws;
mod operands;
mod operations;

pub use code_functions::{Code, CodeFunction, IndexList, Mark, Mi, MiList};
pub use edges::{Edge, MiCase, MiCaseList, Move, MoveList};
pub use examples::an_example_of_instrumented_code;
pub use laws::{each_instruction_has_its_place, few_instructions_are_added};
pub use operands::{IndexStep, IndexStepList, MiOperand, MiOperandList, Width};
pub use operations::MiOp;
