ghost use Rattle.std.specs.Prelude.{◌≡◌, IfOk};
ghost use Rattle.hw_tags.specs.Tag.{heap_tag_of};
ghost use Rattle.hw_tags.specs.Word.{word};

use super::*;
use hw_base::{ByteList, OutOfMemory};
use std::alloc::Global;
use std::test::Fail;

/// The low bytes of the first eight outputs of PCG32 (XSH RR 64/32, stream 1), worked out from the published
/// algorithm by a program of its own, which also gives the published outputs of seed 42 on stream 54.
const FIRST_WORDS: [(u64, [u8; 8]); 3] = [
    (0, [169, 221, 244, 49, 137, 3, 122, 156]),
    (1, [145, 116, 87, 211, 86, 121, 38, 51]),
    (u64::MAX, [81, 166, 189, 59, 149, 133, 73, 103]),
];

#[test]
fn words_of_a_seed_are_low_bytes_of_outputs(rt: HostRuntime) -> Result<(), Fail> {
    for (seed, expected) in FIRST_WORDS {
        let mut words = Words::new(rt.alloc(), &WordsSpec::Seed(seed))?;
        for word in expected {
            assert_eq!(rt; words.next(), word, "of seed {seed}");
        }
    }
    Ok(())
}

#[test]
fn words_of_a_list_repeat(rt: HostRuntime) -> Result<(), Fail> {
    let one = ByteList::from_vec([7u8].to_vec(rt.alloc())?);
    assert_eq!(rt; one.len(), 1);
    let mut words = Words::new(rt.alloc(), &WordsSpec::Cycle(one))?;
    for _ in 0..3 {
        assert_eq!(rt; words.next(), 7);
    }
    let mut long = ByteList::new(rt.alloc());
    for i in 0..65_536u32 {
        long.push((i / 256) as u8)?;
    }
    assert_eq!(rt; long.len(), 65_536);
    let mut words = Words::new(rt.alloc(), &WordsSpec::Cycle(long))?;
    for i in 0..65_536u32 {
        assert_eq!(rt; words.next() as u32, i / 256, "at {i}");
    }
    for _ in 0..256 {
        assert_eq!(rt; words.next(), 0);
    }
    assert_eq!(rt; words.next(), 1);
    Ok(())
}

#[test]
fn tags_of_words(rt: HostRuntime) {
    for (w, tag) in [(0, 1), (7, 8), (254, 255), (255, 1)] {
        assert_eq!(rt; heap_tag(w), tag, "heap, word {w}");
    }
    for (w, old, tag) in [
        (0, 1, 16),
        (0, 16, 17),
        (239, 254, 255),
        (239, 255, 16),
        (240, 255, 16),
        (255, 31, 32),
        (255, 32, 31),
    ] {
        assert_eq!(rt; free_tag(w, old), tag, "freed, word {w}, block's tag {old}");
    }
    for (w, k, tag) in [(0, 0, 1), (250, 4, 255), (250, 5, 1), (255, u32::MAX, 1)] {
        assert_eq!(rt; frame_tag(w, k), tag, "variable {k}, word {w}");
    }
    for (w, k, tag) in [
        (0, 0, 16),
        (239, 0, 255),
        (239, 1, 16),
        (255, 240, 31),
        (1, u32::MAX, 32),
    ] {
        assert_eq!(rt; global_tag(w, k), tag, "global {k}, word {w}");
    }
}

#[test]
fn options_hold_their_least_and_greatest_values(rt: HostRuntime) -> Result<(), Fail> {
    let list = ByteList::from_vec([9u8, 255].to_vec(rt.alloc())?);
    assert_eq!(rt; list.len(), 2);
    let least = Options {
        tags: WordsSpec::Cycle(list),
        turns: WordsSpec::Seed(0),
        steps: 1,
        heap: 16,
        ring: 1,
    };
    assert_eq!(rt; second_heap_tag(rt.alloc(), &least)?, 1);
    let greatest = Options {
        tags: WordsSpec::Seed(1),
        turns: WordsSpec::Seed(u64::MAX),
        steps: 1_000_000_000,
        heap: 268_435_456,
        ring: 65_536,
    };
    assert_eq!(rt; second_heap_tag(rt.alloc(), &greatest)?, 117);
    next_task_is_unfinished();
    Ok(())
}

/// The tag of the second heap block of a run, as a caller of this crate proves it.
fn second_heap_tag(alloc: Global, options: &Options) -> Result<u8, OutOfMemory>
    ensures { IfOk result (λ tag. tag ≡ heap_tag_of (word options.now.tags 1)) }
{
    let mut words = Words::new(alloc, &options.tags)?;
    words.next();
    Ok(heap_tag(words.next()))
}
