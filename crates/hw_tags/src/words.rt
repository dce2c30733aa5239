ghost use Rattle.std.specs.Prelude.{◌≡◌, ℕ, ◌+◌, ◌%◌, ◌^◌, IsOk, IfOk};

use crate::WordsSpec;
use crate::repeated_list::RepeatedList;
use hw_base::OutOfMemory;
use rand_core::utils::NextWord;
use rand_pcg::Pcg32;
use std::alloc::Global;

/// The words of a specification that are still to come. Each draw takes the next one; the draws are not counted, so
/// they never run out.
#[derive(Drop)]
pub struct Words {
    source: Source,
}

#[derive(Drop)]
enum Source {
    Repeated(RepeatedList),
    Generated(Pcg32),
}

impl Words {
    ghost use Rattle.hw_tags.specs.declared.words_spec.WordsSpec.{WordsSpec};
    ghost use Rattle.hw_tags.specs.Word.{word, IsNotEmpty};
    ghost use Rattle.hw_tags.specs.Words.{coming, AreWordsFrom};

    /// All the words of a specification, from word 0 on. A list is copied, which takes memory in proportion to its
    /// length; a seed takes none. The error comes only where the copy finds no memory.
    pub fn new(alloc: Global, spec: &WordsSpec) -> Result<Words, OutOfMemory>
        requires { IsNotEmpty spec.now }
        ensures from_zero { IfOk result (λ words. AreWordsFrom spec.now 0 words) }
        ensures seed_takes_no_memory { (seed : ℕ) → spec.now ≡ WordsSpec.Seed seed → IsOk result }
    {
        let source = Source::new(alloc, spec)?;
        Ok(Words { source })
    }

    /// The next word, 0 to 255. It takes no memory.
    pub fn next(&mut self) -> u8
        ensures first { result ≡ coming self.old 0 }
        ensures rest { (k : ℕ) → coming self.new k ≡ coming self.old (k + 1) }

        // The same of a specification: where word i is the next one, it is the answer, and word i + 1 is next.
        ensures word { (spec : WordsSpec) (i : ℕ) → AreWordsFrom spec i self.old → result ≡ word spec i }
        ensures next { (spec : WordsSpec) (i : ℕ) → AreWordsFrom spec i self.old
            → AreWordsFrom spec (i + 1) self.new }
    {
        self.source.next()
    }
}

impl Source {
    ghost use Rattle.hw_tags.specs.declared.words_spec.WordsSpec.{WordsSpec};
    ghost use Rattle.hw_tags.specs.Word.{word, IsNotEmpty};
    ghost use Rattle.hw_tags.specs.Words.{coming_from};

    fn new(alloc: Global, spec: &WordsSpec) -> Result<Source, OutOfMemory>
        requires { IsNotEmpty spec.now }
        ensures from_zero { IfOk result (λ source. (k : ℕ) → coming_from source k ≡ word spec.now k) }
        ensures seed_takes_no_memory { (seed : ℕ) → spec.now ≡ WordsSpec.Seed seed → IsOk result }
    {
        match spec {
            WordsSpec::Cycle(list) => Ok(Source::Repeated(RepeatedList::new(alloc, list)?)),
            WordsSpec::Seed(seed) => Ok(Source::Generated(Pcg32::new(*seed, 1))),
        }
    }

    fn next(&mut self) -> u8
        ensures first { result ≡ coming_from self.old 0 }
        ensures rest { (k : ℕ) → coming_from self.new k ≡ coming_from self.old (k + 1) }
    {
        match self {
            Source::Repeated(list) => list.next(),
            Source::Generated(generator) => low_byte(generator.next_word()),
        }
    }
}

/// The low eight bits, as a word.
fn low_byte(word: u32) -> u8
    ensures { result ≡ word % 2 ^ 8 }
{
    (word % 256) as u8
}
