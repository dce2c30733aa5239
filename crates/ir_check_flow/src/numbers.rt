//! The limits on what a module has that no layer below names. All of them are this project's choice.

/// How many functions a text can define.
pub const MOST_FUNCTIONS: u64 = 4_096;

/// How many basic blocks a function can have.
pub const MOST_BLOCKS: u64 = 16_384;

/// How many instructions a function can have, phis and terminators among them.
pub const MOST_INSTRUCTIONS: u64 = 262_144;

/// How many metadata nodes can be kept.
pub const MOST_NODES: u64 = 1_048_576;
