//! The items of a module as they are spelled, with the bodies of its functions: a text's tokens are read by the grammar of
//! modules, and what it spells is gathered in lists, with names as tokens. Its main call is `read_items`; the layer above relies on it that exactly the
//! texts of the grammar are read, and that a fault is at the first token with which nothing is derived, or with which something is derived of
//! more than 64 levels only.
#![tactic(auto)]

mod declares;
mod defines;
mod globals;
mod items;
mod laws;
mod nodes;
mod whole;

pub use laws::{bodies_lie_in_rows, texts_are_modules};
pub use whole::read_items;

#[cfg(test)]
mod tests;
