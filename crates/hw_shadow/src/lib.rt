//! Tags of memory, a shadow byte for each granule of 16 bytes: when a pointer's tag agrees with a granule's, what refuses
//! an access, and the tags of an object's granules. The simulated memory's check and the tags that a run without tags
//! would have had use the same definitions of this crate, which take the tags and last bytes as functions. [`Shadow`] keeps
//! the tags of one range of memory; the layer above relies on its length, which never changes.
#![tactic(auto)]

mod examples;
mod laws;
mod mismatch;
mod shadow;
mod tag_rule;

pub use examples::{short_granules_agree, tags_of_objects};
pub use laws::{each_touched_granule_agrees, objects_have_tags, the_first_refuses};
pub use mismatch::Mismatch;
pub use shadow::Shadow;
pub use tag_rule::tags_agree;

#[cfg(test)]
mod tests;
