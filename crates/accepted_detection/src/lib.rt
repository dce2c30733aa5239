//! The detection theorem for accepted modules. Their runs are never stuck until the heap or a stack is full, so one case of the
//! theorem always holds. Its functions do nothing when they run: they carry the laws.
#![tactic(auto)]

mod examples;
mod laws;

pub use examples::the_theorem_speaks_of_accepted_programs;
pub use laws::{
    accepted_runs_are_never_stuck, faultless_accepted_programs_print_the_same,
    no_report_without_a_violation, violations_of_accepted_modules_are_detected,
};
