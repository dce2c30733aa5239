use super::*;
use hw_base::{ByteList, Full, HEAP_AT, OutOfMemory, Space};
use hw_tags::{Words, WordsSpec};
use std::alloc::Global;
use std::test::Fail;
use tbi_memory::{Layout, Memory};

/// A heap of 64 bytes with its memory. Its tasks each remember two freed blocks. The words are 41, 3, 26, 7, and again.
#[derive(Drop)]
struct Run {
    heap: Heap,
    mem: Memory,
    words: Words,
}

fn small_memory(alloc: Global) -> Result<Memory, OutOfMemory> {
    let layout = Layout {
        constants: 0,
        variables_at: 0x1_1000,
        variables: 0,
        heap: 64,
    };
    Memory::new(alloc, &layout)
}

fn four_words(alloc: Global) -> Result<Words, OutOfMemory> {
    let list = [41u8, 3, 26, 7].to_vec(alloc)?;
    Words::new(alloc, &WordsSpec::Cycle(ByteList::from_vec(list)))
}

fn small_run(alloc: Global) -> Result<Run, OutOfMemory> {
    let heap = Heap::new(alloc, HEAP_AT, 64, 2)?;
    let mem = small_memory(alloc)?;
    let words = four_words(alloc)?;
    Ok(Run { heap, mem, words })
}

/// A block of this size is born, and has this number.
fn born(run: &mut Run, size: u128, birth: u32, number: u64) -> bool {
    match run
        .heap
        .malloc(&mut run.mem, &mut run.words, size, birth, 5)
    {
        Ok(found) => found == number,
        Err(_) => false,
    }
}

/// There is no place for a block of this size beside as many bytes of blocks.
fn full(run: &mut Run, size: u128, living: u64) -> bool {
    let full = Full {
        space: Space::Heap,
        asked: size,
        living,
    };
    match run.heap.malloc(&mut run.mem, &mut run.words, size, 0, 5) {
        Ok(_) => false,
        Err(found) => found == full,
    }
}

/// Task 0 frees a number. Before that there is one task more, and room for a death.
fn frees(run: &mut Run, number: u64, died: u32) -> bool {
    if run.heap.add_task().is_err() || run.heap.reserve().is_err() {
        return false;
    }
    run.heap
        .free(&mut run.mem, &mut run.words, number, 0, died)
        .is_ok()
}

/// A free of this number isn't passed, and finds a living block with this tag, or none.
fn refused(run: &Run, number: u64, tag: Option<u8>) -> bool {
    match run.heap.may_free(number) {
        Ok(()) => false,
        Err(found) => found.pointer as u64 == number >> 56 && found.block == tag,
    }
}

/// The living block that is number `i` has this address, size and tag.
fn lives(run: &Run, i: u32, at: u64, size: u64, tag: u8) -> bool {
    match run.heap.living(i) {
        Some(block) => block.at == at && block.size == size && block.tag == tag,
        None => false,
    }
}

/// The block that is number `i` of those that task 0 remembers has this birth and this death.
fn remembers(run: &Run, i: u32, birth: u32, died: u32) -> bool {
    match run.heap.freed(0, i) {
        Some(freed) => freed.block.birth == birth && freed.died == died,
        None => false,
    }
}

/// The granule has this tag.
fn tagged(run: &Run, at: u64, tag: u8) -> bool {
    run.mem.tag_at(at) == Some(tag)
}

/// 17 bytes are born with the tag 42, and 16 bytes after them with the tag 4.
fn two_births(run: &mut Run) -> bool {
    born(run, 17, 1, 0x2a00_0000_2000_0000) && born(run, 16, 2, 0x0400_0000_2000_0020)
}

fn first_death(run: &mut Run) -> bool {
    frees(run, 0x2a00_0000_2000_0000, 9)
}

#[test]
fn a_block_takes_the_least_place(rt: HostRuntime) -> Result<(), Fail> {
    let mut run = small_run(rt.alloc())?;
    assert!(rt; two_births(&mut run) && first_death(&mut run));
    assert!(rt; born(&mut run, 32, 3, 0x0800_0000_2000_0000));
    assert!(rt; lives(&run, 0, 0x2000_0000, 32, 8));
    assert!(rt; lives(&run, 1, 0x2000_0020, 16, 4));
    assert!(rt; run.heap.living(2).is_none());
    Ok(())
}

#[test]
fn granules_have_the_tags_of_births(rt: HostRuntime) -> Result<(), Fail> {
    let mut run = small_run(rt.alloc())?;
    assert!(rt; two_births(&mut run));
    assert!(rt; tagged(&run, 0x2000_0000, 42));
    assert!(rt; tagged(&run, 0x2000_0010, 1));
    assert!(rt; tagged(&run, 0x2000_0020, 4));
    assert!(rt; tagged(&run, 0x2000_0030, 0));
    Ok(())
}

#[test]
fn granules_have_the_tags_of_deaths(rt: HostRuntime) -> Result<(), Fail> {
    let mut run = small_run(rt.alloc())?;
    assert!(rt; two_births(&mut run) && first_death(&mut run));
    assert!(rt; tagged(&run, 0x2000_0000, 43));
    assert!(rt; tagged(&run, 0x2000_0010, 43));
    assert!(rt; tagged(&run, 0x2000_0020, 4));
    Ok(())
}

#[test]
fn a_free_needs_the_tagged_address_of_a_block(rt: HostRuntime) -> Result<(), Fail> {
    let mut run = small_run(rt.alloc())?;
    assert!(rt; two_births(&mut run));
    assert!(rt; refused(&run, 0x2b00_0000_2000_0000, Some(42)));
    assert!(rt; refused(&run, 0x2a00_0000_2000_0010, None));
    assert!(rt; refused(&run, 0x2a00_0000_2000_0001, None));
    assert!(rt; refused(&run, 0x2a00_0000_1000_0000, None));
    Ok(())
}

#[test]
fn a_block_is_freed_once(rt: HostRuntime) -> Result<(), Fail> {
    let mut run = small_run(rt.alloc())?;
    assert!(rt; two_births(&mut run) && first_death(&mut run));
    assert!(rt; !first_death(&mut run));
    assert!(rt; frees(&mut run, 0, 9));
    assert!(rt; run.heap.freed(0, 1).is_none());
    Ok(())
}

#[test]
fn a_full_heap_draws_no_word(rt: HostRuntime) -> Result<(), Fail> {
    let mut run = small_run(rt.alloc())?;
    assert!(rt; full(&mut run, 65, 0));
    assert!(rt; full(&mut run, u128::MAX, 0));
    assert!(rt; born(&mut run, 64, 1, 0x2a00_0000_2000_0000));
    assert!(rt; full(&mut run, 0, 64));
    Ok(())
}

#[test]
fn a_block_without_bytes_takes_a_granule(rt: HostRuntime) -> Result<(), Fail> {
    let mut run = small_run(rt.alloc())?;
    assert!(rt; born(&mut run, 0, 1, 0x2a00_0000_2000_0000));
    assert!(rt; born(&mut run, 0, 2, 0x0400_0000_2000_0010));
    assert!(rt; full(&mut run, 33, 32));
    Ok(())
}

#[test]
fn a_task_remembers_the_last_blocks(rt: HostRuntime) -> Result<(), Fail> {
    let mut run = small_run(rt.alloc())?;
    assert!(rt; two_births(&mut run) && born(&mut run, 1, 3, 0x1b00_0000_2000_0030));
    assert!(rt; frees(&mut run, 0x0400_0000_2000_0020, 7) && first_death(&mut run));
    assert!(rt; remembers(&run, 0, 1, 9) && remembers(&run, 1, 2, 7));
    assert!(rt; frees(&mut run, 0x1b00_0000_2000_0030, 8));
    assert!(rt; remembers(&run, 0, 3, 8) && remembers(&run, 1, 1, 9));
    Ok(())
}
