//! The machine that runs instrumented code: memory with tags, blocks, frames, globals and tasks, a step of one task by each
//! machine instruction, and whole runs by turn words, as definitions with their laws and examples; and `Machine`, which runs code
//! step by step. The layer above relies on it that `Machine::step` is the definition's step. Of the instructions it runs those
//! of `specs/Built.antt`.
#![tactic(auto)]

mod accesses;
mod addresses;
mod arithmetic;
mod blocks;
mod branches;
mod byte_functions;
mod calls;
mod checks;
mod examples;
mod found;
mod frames;
mod further_examples;
mod laws;
mod library;
mod machine;
mod operations;
mod program;
mod progress;
mod run;
mod start_error;
mod stepped;
mod text_functions;
mod turn;

pub use examples::{
    a_heap_overflow_is_reported, a_use_after_free_is_reported, a_use_after_return_is_reported,
    a_written_last_byte_hides_an_overflow, runs_exit_and_trap, turn_words_decide_a_race,
};
pub use found::{Found, Raw};
pub use further_examples::{
    blocks_are_checked, blocks_are_zero_and_grow, constants_and_strings, input_and_numbers,
    tasks_wait_and_end,
};
pub use laws::{a_run_is_never_stuck, frames_are_at_their_places, runs_go_on, tables_fit_together};
pub use machine::Machine;
pub use program::Program;
pub use start_error::StartError;
pub use stepped::Stepped;
