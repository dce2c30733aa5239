//! The simulated address space: mapped bytes, a tag for each granule of 16 bytes, and constants that can't be written.
//! Addresses ignore the top byte of a number. Blocks, frames, globals and library functions move and tag bytes by the
//! definitions of this crate, and see memory through a byte at an address alone.
#![tactic(auto)]

mod examples;
mod laws;
mod layout;
mod mapped_part;
mod mem_fault;
mod memory;
mod moves;
mod reads;

pub use examples::{a_small_space, objects_in_memory, refused_accesses};
pub use hw_shadow::Mismatch;
pub use laws::{
    a_write_changes_its_bytes_alone, all_is_zero_at_the_start, fresh_objects_stay_inside,
    nothing_is_unmapped, what_is_written_is_read,
};
pub use layout::Layout;
pub use mem_fault::MemFault;
pub use memory::Memory;

#[cfg(test)]
mod tests;
