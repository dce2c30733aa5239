//! From types as they are spelled to the types of a module, by numbers: `number_types` gives each spelled type its number
//! and its entry, where a name is another word for the type that it leads to, and `classes` gives the types classes, equal
//! ones exactly where two types are one. The layers above look types up by their numbers, lay them out, and compare them
//! by their classes.
#![tactic(auto)]

mod laws;
mod letter;
mod numbering;
mod type_classes;
mod word_numbers;

pub use laws::{a_name_is_another_word, a_name_of_no_type_holds_itself};
pub use numbering::{NumberedTypes, number_types};
pub use type_classes::classes;

#[cfg(test)]
mod tests;
