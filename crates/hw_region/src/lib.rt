//! The bytes of one region of the simulated memory, in one vector: numbers are read and written in them, and runs of them are
//! filled and copied. The main calls are [`Region::get`] and [`Region::put`]. A region knows no addresses and no tags; the layer
//! above relies on its length, which never changes, and on no call but `new` taking memory.
#![tactic(auto)]

mod laws;
mod region;

pub use laws::{each_place_has_its_byte, other_bytes_stay, what_is_written_is_read};
pub use region::Region;

#[cfg(test)]
mod tests;
