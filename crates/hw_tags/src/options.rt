ghost use Rattle.hw_tags.specs.Options.{IsOptions};

use crate::WordsSpec;

/// The options of a run, each in its range. The ranges are this project's choice.
#[derive(Drop)]
pub struct Options {
    /// The words from which tags are made.
    pub tags: WordsSpec,
    /// The words by which the next task is chosen.
    pub turns: WordsSpec,
    /// The greatest number of source steps, 1 to 1,000,000,000.
    pub steps: u64,
    /// The size of the heap in bytes, a multiple of 16 from 16 to 268,435,456.
    pub heap: u64,
    /// How many of its last ended frames, and of its last freed blocks, each task remembers, 1 to 65,536.
    pub ring: u32,
    pub ghost in_range: { IsOptions tags turns steps heap ring },
}
