//! Frames of variables with tags: the places and tags of a frame's variables, what memory is when a function is
//! entered and left, and which ended frames a task remembers. The main calls are [`Stacks::enter`], [`Stacks::leave`] and
//! [`Stacks::variable`]. Contracts see [`Stacks`] as the definitions' stacks, which the machine's definitions use, and the
//! layer above relies on that leaving takes no memory, and that a variable's address is found in constant time.
#![tactic(auto)]

mod enter_error;
mod entered_frames;
mod examples;
mod frame_record;
mod laws;
mod stacks;
mod task_stack;
mod variables;

pub use enter_error::EnterError;
pub use examples::frames_by_example;
pub use frame_record::FrameRecord;
pub use laws::{
    a_frame_ends_at_the_one_before, frames_stay_inside, leaving_undoes_entering,
    the_living_size_is_the_sum,
};
pub use stacks::Stacks;

#[cfg(test)]
mod tests;
