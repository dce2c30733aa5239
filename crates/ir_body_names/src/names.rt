use ir_core::NodeKind;
use ir_grammar::{SpelledBodies, SpelledType};
use ir_names::Index;

/// What the names in bodies are resolved against, for all bodies of a text.
#[derive(Drop)]
pub struct Names<'a, 'k> {
    /// The text.
    pub source: &'a [u8],
    /// Its types as they are spelled.
    pub types: &'a [SpelledType],
    /// For each spelled type the number of the type that it stands for.
    pub numbers: &'a [u32],
    /// What bodies spell.
    pub bodies: &'a SpelledBodies,
    /// The keys of the names of defined functions, in order of the text: a function's number is its place.
    pub functions: &'a Index<'k>,
    /// The keys of the names of declared functions that can be called, in order of the text.
    pub declares: &'a Index<'k>,
    /// The numbers of the metadata nodes that are kept, in order of the text, without the zeros in front.
    pub nodes: &'a Index<'k>,
    /// What each of these nodes describes.
    pub kinds: &'a [NodeKind],
}
