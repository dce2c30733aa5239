//! The detection theorem. Runs of a module's instrumented code start in a state that is related to the start of the source
//! program, and follow its run. So they print what the source program prints until its first violation, and report that one
//! exactly if the tag rule refuses it. Its functions do nothing when they run: they carry the laws.
#![tactic(auto)]

mod examples;
mod laws;

pub use examples::the_theorem_speaks_of_a_program;
pub use laws::{
    faultless_programs_print_the_same, modules_have_settings, no_report_without_a_violation,
    runs_are_followed, stories_of_runs_are_laid_out, tag_words_change_nothing_before_a_violation,
    tag_words_decide_over_tags_alone, violations_are_detected, whole_runs_are_followed,
};
