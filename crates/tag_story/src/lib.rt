//! The tags that the objects of a source run would have: the story follows the births and deaths of the run, gives each
//! object its place and tag, and judges a violation by the tag rule, with no memory and no machine. All of it is
//! definitions with their laws and examples.
#![tactic(auto)]

mod examples;
mod further_examples;
mod judgement;
mod laws;

pub use examples::judged_violations;
pub use further_examples::{full_stories, judged_frees, judged_reads, judged_writes};
pub use judgement::{Coincidence, Judgement, Refusing, Short};
pub use laws::{
    a_block_has_the_least_place, granules_have_one_owner, stories_are_laid_out, stories_go_on,
};
