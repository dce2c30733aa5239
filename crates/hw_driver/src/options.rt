ghost use Rattle.std.specs.Prelude.{◌≡◌, IfOk};
ghost use Rattle.hw_tags.specs.Word.{IsWordsSpec};
ghost use Rattle.hw_tags.specs.Options.{IsHeapSize, IsRingSize, IsStepBound};
ghost use Rattle.hw_driver.specs.Given.{HasBound, HasHeap, HasRing, HasTags, tags_view};
ghost use Rattle.hw_driver.specs.Answer.{tag_words, steps_or, ring_or, heap_or, IsOptionsOf};
ghost use Rattle.hw_driver.specs.LineView.{line_view};

use crate::command::{Command, Given, TagWords};
use crate::words::read_tag_list;
use hw_base::OutOfMemory;
use hw_tags::{Options, WordsSpec};
use std::alloc::Global;

/// The bound on the steps of a run, unless another is given.
pub const STEPS: u64 = 10_000_000;

/// The size of the heap in bytes, unless another is given.
pub const HEAP: u64 = 16_777_216;

/// How many of its last ended frames, and of its last freed blocks, each task remembers, unless another number is given.
pub const RING: u32 = 1_023;

// The tag words: those that are given, or else those of seed 1.
fn tag_words(alloc: Global, tags: Option<TagWords<'_>>) -> Result<WordsSpec, OutOfMemory>
    requires { HasTags tags }
    ensures value { IfOk result (λ words. words ≡ tag_words (tags_view tags.entry)) }
    ensures range { IfOk result IsWordsSpec }
{
    match tags {
        None => Ok(WordsSpec::Seed(1)),
        Some(TagWords::Seed(seed)) => Ok(WordsSpec::Seed(seed)),
        Some(TagWords::List(text)) => Ok(WordsSpec::Cycle(read_tag_list(alloc, text)?)),
    }
}

/// The bound on the steps.
fn steps_or(given: Given<'_>) -> u64
    requires { HasBound given.steps }
    ensures range { IsStepBound result }
    ensures value { result ≡ steps_or given.entry.steps }
{
    match given.steps {
        None => STEPS,
        Some(steps) => steps,
    }
}

/// How many ended frames and freed blocks a task remembers.
fn ring_or(given: Given<'_>) -> u32
    requires { HasRing given.ring }
    ensures range { IsRingSize result }
    ensures value { result ≡ ring_or given.entry.ring }
{
    match given.ring {
        None => RING,
        Some(ring) => ring,
    }
}

/// The size of the heap in bytes.
fn heap_or(given: Given<'_>) -> u64
    requires { HasHeap given.heap }
    ensures range { IsHeapSize result }
    ensures value { result ≡ heap_or given.entry.heap }
{
    match given.heap {
        None => HEAP,
        Some(heap) => heap,
    }
}

/// The options of a run under a command.
pub fn options_of(alloc: Global, command: &Command<'_>) -> Result<Options, OutOfMemory>
    ensures { IfOk result (λ options. IsOptionsOf (line_view command.now) options) }
{
    let tags = tag_words(alloc, command.given.tags)?;
    let steps = steps_or(command.given);
    let ring = ring_or(command.given);
    let heap = heap_or(command.given);
    Ok(Options {
        tags,
        turns: WordsSpec::Seed(1),
        steps,
        heap,
        ring,
    })
}
