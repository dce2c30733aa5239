//! That a text has one module: whatever is chosen in reading it, as the numbers of classes of types, shows nowhere in the module.
//! The layers above, which run the module of a text, rely on it for what a text means.
#![tactic(auto)]

mod laws;

pub use laws::a_text_has_one_module;
