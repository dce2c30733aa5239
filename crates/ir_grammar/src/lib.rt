//! The grammar of the accepted text, between its tokens and the readers of items, bodies and metadata: what a production
//! is, what reading by one answers, and the laws of both; the kinds of tokens that the grammar decides by; and the
//! productions that all readers share, of types, attributes, values, constants, parameters and skipped runs, with the code that reads
//! them. Beside it stands what the kept metadata nodes are and say.
//! The readers above say of each of their own methods which production it reads, and rely on the laws.
#![tactic(auto)]

mod attributes;
mod constants;
mod context;
mod debug_laws;
mod kind;
mod kind_of;
mod laws;
mod parameters;
mod reader;
mod skipped;
mod spelled;
mod spelled_bodies;
mod terminal;
mod types;
mod words;

pub use context::Context;
pub use debug_laws::kept_nodes_are_resolved;
pub use kind::Kind;
pub use kind_of::terminals;
pub use laws::{one_token_ahead_decides, reading_is_deriving};
pub use parameters::token_in;
pub use reader::{Reader, SpelledBodies, Spellings};
pub use spelled::{
    SpelledConstant, SpelledInteger, SpelledItem, SpelledParameter, SpelledType, TypedConstant,
    TypedIndex,
};
pub use spelled_bodies::{
    SpelledAttachment, SpelledBlock, SpelledCase, SpelledIncoming, SpelledInstruction,
    SpelledOperand, SpelledOperation, TypedOperand,
};
pub use terminal::{Failure, Flaw, Terminal};
pub use words::{
    commas, globals, integers, locals, meta_names, refused_types, refused_values, refused_words,
    texts, voids,
};
