//! The free ranges of the simulated heap, sorted by their addresses. `Holes::take` gives the lowest place that is free for
//! a block, and `Holes::give` frees it again. Neither takes memory: room for one more range is made by `Holes::reserve`.
#![tactic(auto)]

mod holes;
mod laws;
mod ranges;
#[cfg(test)]
mod tests;

pub use holes::Holes;
pub use laws::{the_lowest_place_is_found, what_is_given_is_free_alone, what_is_taken_is_not_free};
pub use ranges::FreeRange;
