//! The type rules of a module: each operand has the type that is asked for, each instruction a type that it takes, and
//! declarations of known functions have their types. Its main call is `check_types`; the layers above rely on its result
//! that no rule is broken.
#![tactic(auto)]

mod addresses;
mod calls;
mod given;
mod instructions;
mod laws;
mod operands;
mod order;
mod parameters;
mod rules;
mod same_types;
mod signatures;
mod switches;

pub use laws::passed_instructions_can_be_run;
pub use order::{earlier, is_before, refusal_at, unless};
pub use rules::check_types;
