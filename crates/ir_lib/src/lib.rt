//! The library functions on bytes and strings of the simulated memory: copies, fills and comparisons, the length of a string,
//! and its check byte by byte. The machine calls them and its definitions use those of this crate and of the address space.
//! After an error memory is as it was.
#![tactic(auto)]

mod bytes;
mod examples;
mod laws;
mod string_fault;
mod strings;

pub use bytes::{compare, copy, set};
pub use examples::{bytes_compare_in_order, strings_by_example};
pub use laws::{a_checked_string_is_read, bytes_equal_themselves, no_scan_runs_out};
pub use string_fault::StringFault;
pub use strings::{check_string, length, push_string};

#[cfg(test)]
mod tests;
