use crate::Place;
use std::mem::size_of;

/// The kinds of tokens, by their spelling. `specs/Spelling.antt` says which bytes are a token of each.
#[derive(Clone, Copy, Debug, PartialEq, Eq)]
pub enum TokenKind {
    Word,
    /// A name or a string, and the `:` after it.
    Label,
    Integer,
    Float,
    /// `%` and a number, a string or a name.
    Local,
    /// `@` and a number, a string or a name.
    Global,
    /// `!` and a name.
    MetaName,
    /// `!` and digits.
    MetaNumber,
    Bang,
    /// `#` and digits.
    AttrNumber,
    /// `#dbg_` and what follows at once.
    DebugRecord,
    /// A string.
    Text,
    /// `c` and a string.
    Bytes,
    Mark,
}

/// A token of a text: its kind, its bytes from offset `from` to below offset `to`, counted in bytes from 0, and the
/// place of its first byte.
#[derive(Clone, Copy, Debug, PartialEq, Eq)]
pub struct Token {
    pub kind: TokenKind,
    pub from: u32,
    pub to: u32,
    pub place: Place,
}

// The tokens of a text of 16 MiB take at most 32 times its bytes.
const _: () = prove!(size_of::<Token>() <= 32);
