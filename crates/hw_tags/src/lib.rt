//! Where tags come from: the tag words and turn words that the user chose, drawn one by one, and the formulas that
//! make a tag of a word. The main call is [`Words::next`], which gives the i-th word of a specification for the i-th
//! draw; the layers above speak of words by their index, of the choice of the next task by the turn word
//! drawn, and of a block's place by the ranges that are taken.
#![tactic(auto)]

mod least_place;
mod options;
mod repeated_list;
mod tags;
mod turns;
mod words;
mod words_spec;

pub use least_place::blocks_have_the_least_place;
pub use options::Options;
pub use tags::{frame_tag, free_tag, global_tag, heap_tag};
pub use turns::{next_task_is_unfinished, unfinished_tasks_are_listed};
pub use words::Words;
pub use words_spec::WordsSpec;

#[cfg(test)]
mod tests;
