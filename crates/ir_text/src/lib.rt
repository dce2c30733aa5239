//! What single tokens say, between the tokens and the readers of items and metadata: the bytes of strings and names, when
//! two names are one, the numbers of nodes, lines and columns, and which data layouts are taken. The readers above call
//! these on a token's bytes, and say the same of them in their own contracts.
#![tactic(auto)]

mod data_layout;
mod escapes;
mod names;
mod numbers;

pub use data_layout::is_layout_taken;
pub use names::{
    is_constructor_list, is_debug_function, is_label_of, is_used_list, name_bytes, name_key,
    string_bytes,
};
pub use numbers::{line_or_column, number_behind_bang, significant, small_number};

#[cfg(test)]
mod tests;
