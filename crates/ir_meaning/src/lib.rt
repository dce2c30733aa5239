//! What a module of LLVM IR means, with no tag and no address: objects and offsets, the access rule, one step of a task
//! and the run of all tasks, as definitions. Nothing that computes uses them yet. The functions here do nothing when they
//! run: they carry examples shown by evaluation, and laws of the definitions.
#![tactic(auto)]

mod ends_of_runs;
mod examples;
mod further_examples;
mod laws;
mod programs;

pub use ends_of_runs::{end_of_the_input, frees_by_the_access_rule, states_after_the_last_step};
pub use examples::{exits_and_traps, turns_of_two_tasks, violations};
pub use further_examples::{
    blocks_are_checked, blocks_are_zero_and_grow, input_and_numbers, strings_are_checked,
    tasks_wait_and_end,
};
pub use laws::{
    births_at_the_start, runs_under_bounds, scans_of_strings_end, what_changes_keep,
    what_steps_do_to_births, what_was_written_is_read,
};
pub use programs::small_programs;
