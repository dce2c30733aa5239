//! The tasks of a run: their frames, which are activations of functions with registers, places in the functions' code and
//! chains of sites, and the choice of the task that makes the next step. The main calls are those of [`Tasks`] and
//! [`Turns::pick`]. Contracts see the tasks in order of start, each as the list of its frames, newest first, as `hw_tags` does
//! in its runs of tasks. [`CallStack`] has the frames of one unfinished task.
#![tactic(auto)]

mod activation;
mod call_stack;
mod laws;
mod task;
mod tasks;
mod turns;

pub use activation::Activation;
pub use call_stack::CallStack;
pub use laws::{registers_keep_what_is_set, unfinished_tasks_have_frames};
pub use tasks::Tasks;
pub use turns::Turns;

#[cfg(test)]
mod tests;
