ghost use Rattle.hw_driver.specs.Given.{IsGiven};

/// The tag words that are given: the text of a list of them, or a seed.
#[derive(Clone, Copy)]
pub enum TagWords<'a> {
    List(&'a str),
    Seed(u64),
}

/// The options that are given: the tag words, a bound on the steps, how many ended frames and freed blocks a task remembers, and
/// the size of the heap in bytes.
#[derive(Clone, Copy)]
pub struct Given<'a> {
    pub tags: Option<TagWords<'a>>,
    pub steps: Option<u64>,
    pub ring: Option<u32>,
    pub heap: Option<u64>,
}

/// A command: the FILE word, and the options that are given.
#[derive(Clone, Copy)]
pub struct Command<'a> {
    pub file: &'a str,
    pub given: Given<'a>,
    ghost in_range: { IsGiven given },
}
