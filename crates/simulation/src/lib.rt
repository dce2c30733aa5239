//! The relation between the run of the source program with its story and the machine that runs the instrumented code, and what
//! keeps it: births and deaths, writes, and checks, which find what the story says. The steps and the runs above rest on
//! it. Its functions do nothing when they run: they carry the laws.
#![tactic(auto)]

mod laws;

pub use laws::{
    births_keep_the_relation, checks_find_what_the_story_says, deaths_keep_the_relation,
    fine_accesses_read_the_images, images_stay, no_fine_access_is_refused,
    writes_keep_the_relation,
};
