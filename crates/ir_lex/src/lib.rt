//! The first phase of reading: a text becomes its tokens with their places, or is refused at the first byte at which no
//! token can be read. The main call is `lex`. The readers above rely on it: what it returns is the one tokenisation of
//! the text, and a refusal comes exactly if there is none.
#![tactic(auto)]

mod classes;
mod cursor;
mod front;
mod gaps;
mod laws;
mod lexer;
mod reach;

pub use laws::each_text_is_cut_in_one_way;
pub use lexer::{end_of, lex};

#[cfg(test)]
mod tests;
