//! A text of LLVM IR read into a module, or the first fault of a text that isn't accepted. Its main call is `read`, which
//! goes through the phases of a text: its length, its tokens, the grammar, names, chains of scopes. What it promises is that the
//! module is the one that the text spells, with its functions. Types and flow are checked on the module, by the layers above.
#![tactic(auto)]

mod assembly;
mod bodies;
mod declared;
mod entry;
mod functions;
mod given;
mod global_variables;
mod laws;
mod marks;
mod pairs;
mod reading;

pub use laws::each_text_has_one_answer;
pub use reading::read;

#[cfg(test)]
mod tests;
