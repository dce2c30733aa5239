//! What the names of a module mean, outside the bodies of its functions: which names are one, the first fault of a name, and
//! what stands for the names of types and of global variables. The main call is `resolve_names`, on the items of a text as
//! they were read. The layer above takes its answer for the fault of a text, or builds the module's types and first values by
//! it, without comparing a name again.
#![tactic(auto)]

mod constants;
mod counter;
mod definitions;
mod fault;
mod index;
mod keys;
mod laws;
mod parameters;
mod references;
mod resolve;
mod starts;
mod types;

pub use counter::is_number;
pub use fault::{NameFault, NamesError, beside_fault_if};
pub use index::Index;
pub use keys::{behind_sigil, global_key, text_of};
pub use laws::{
    a_name_means_what_has_it, one_name_has_one_key, the_first_fault_is_before_all_others,
    what_names_stand_for_is_there,
};
pub use references::{References, Resolution};
pub use resolve::resolve_names;

#[cfg(test)]
mod tests;
