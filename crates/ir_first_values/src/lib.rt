//! The first values of global variables: an initializer as it is spelled is made into pieces of bytes, and found to break a
//! type rule if it isn't a value of the variable's type. Its main call is `Initializers::first_value`; the layer above
//! relies on it that the pieces are exactly those that `specs/FirstValues.antt` says, in order of the text.
#![tactic(auto)]

mod addresses;
mod first_values;
mod integers;
mod no_value;
mod offsets;
mod operands;
mod parts;
mod tables;
mod values;

pub use first_values::FirstValue;
pub use offsets::FieldOffsets;
pub use tables::Initializers;

#[cfg(test)]
mod tests;
