//! Heap blocks with tags: where a block is born and with which tag, what a free asks of its number, and what memory and
//! the table of blocks are afterwards. The definitions come with their laws and examples, and the machine's definitions use
//! them. `Heap` is the heap of a run: the main calls are `Heap::malloc` and `Heap::free`. The layer above relies on that they
//! do exactly the definitions' steps, and that neither takes memory of the host.
#![tactic(auto)]

mod block_table;
mod blocks;
mod examples;
mod heap;
mod laws;

pub use blocks::{Block, FreeMismatch, Freed};
pub use examples::{births_by_example, frees_by_example};
pub use heap::Heap;
pub use laws::{
    the_free_ranges_are_the_gaps, the_free_rule, the_living_size_is_the_sum, the_table_of_blocks,
};

#[cfg(test)]
mod tests;
