//! The names of the functions of the outside, which a module declares and calls without defining them: no two of them have one
//! name, so a declared name means one function, or none. The layer above, which reads a text into a module, relies on it
//! where it shows that a text has one module.
#![tactic(auto)]

mod laws;

pub use laws::each_function_has_its_own_name;
