ghost use Rattle.std.specs.Prelude.{◌≡◌, ℕ, ◌+◌, ◌-◌, ◌*◌, ◌/◌, ◌%◌, ◌<◌, ◌≤◌, ◌==◌, [], length, slice_get, slice_index_or, vec_capacity, IfOk, None};
ghost use Rattle.std.specs.List.{find};
ghost use Rattle.tag_alloc.specs.HeapBlocks.{with_block, without_block};
ghost use Rattle.tag_alloc.specs.HeapTables.{AreAt, blocks_of, entry_number};

use crate::blocks::Block;
use hw_base::OutOfMemory;
use std::alloc::Global;
use std::marker::Model;

/// The kept entries grow to a multiple of this many, or to all granules of the heap.
const GROWTH: usize = 1_024;

/// The living blocks of a heap, by an entry for each granule, which has the block that begins there. Contracts see the blocks
/// in order of place, and the bounds of the heap in bytes. Only `new` takes memory. Only the entries up to the highest granule
/// that a block began at are kept. So `new` takes room for all entries, but touches none of it.
#[derive(Drop)]
pub struct BlockTable {
    entries: Vec<Option<Block>>,
    low: u64,
    granules: u64,
}

impl Model for BlockTable {
    ghost use Rattle.std.specs.Prelude.{◌+◌, ◌*◌, ◌≤◌, length, vec_capacity};
    ghost use Rattle.tag_alloc.specs.HeapTables.{AreAt, BlocksState, blocks_of};

    ghost Value = { BlocksState };

    ghost view = { λ t. record { blocks = blocks_of t.entries.items; low = t.low; high = t.low + 16 * t.granules } };

    ghost invariant = { λ t. AreAt t.low t.entries.items × (length t.entries.items ≤ t.granules) × (t.granules ≤ vec_capacity t.entries) };
}

impl BlockTable {
    /// The table of a heap of `len` bytes from `low` on, without blocks. It fails only if memory runs out.
    pub fn new(alloc: Global, low: u64, len: u64) -> Result<BlockTable, OutOfMemory>
        requires { len % 16 ≡ 0 }
        ensures { IfOk result (λ table. table ≡ record { blocks = []; low = low; high = low + len }) }
    {
        let granules = len / 16;
        let entries = Vec::with_capacity(alloc, granules as usize)?;
        Ok(BlockTable {
            entries,
            low,
            granules,
        })
    }

    /// The living block that begins at an address, or none.
    pub fn at(&self, address: u64) -> Option<Block>
        ensures { result ≡ find (λ block. block.at == address) self.now.blocks }
    {
        match entry_number(self.low, address) {
            Some(i) => entry(&self.entries, i),
            None => None,
        }
    }

    /// The living block that is number `i`, from 0, in order of place, or none exactly if there are at most `i`. It looks at
    /// each entry.
    pub fn nth(&self, i: u32) -> Option<Block>
        ensures { result ≡ slice_get self.now.blocks i }
    {
        nth_block(&self.entries, i)
    }

    /// Adds a block, which begins at a granule of the heap at which no other begins.
    pub fn put(&mut self, block: Block)
        requires above_low { self.old.low ≤ block.at }
        requires below_high { block.at < self.old.high }
        requires in_steps { (block.at - self.old.low) % 16 ≡ 0 }
        requires unused { find (λ other. other.at == block.at) self.old.blocks ≡ None }
        ensures { self.new ≡ record self.old { blocks = with_block block self.old.blocks } }
    {
        let place = ((block.at - self.low) / 16) as usize;
        reach(&mut self.entries, place + 1, self.granules as usize);
        self.entries[place] = Some(block);
    }

    /// Removes the block that begins at a granule of the heap, if there is one.
    pub fn remove(&mut self, address: u64)
        requires above_low { self.old.low ≤ address }
        requires in_steps { (address - self.old.low) % 16 ≡ 0 }
        ensures { self.new ≡ record self.old { blocks = without_block address self.old.blocks } }
    {
        let place = ((address - self.low) / 16) as usize;
        if place < self.entries.len() {
            self.entries[place] = None;
        }
    }
}

/// The number of the entry of an address, or none if no granule begins there, in a heap from `low` on.
fn entry_number(low: u64, address: u64) -> Option<u64>
    ensures { result ≡ entry_number low address }
{
    if low <= address && (address - low) % 16 == 0 {
        Some((address - low) / 16)
    } else {
        None
    }
}

/// The block of entry number `i`, or none if there is none or no such entry.
fn entry(entries: &[Option<Block>], i: u64) -> Option<Block>
    ensures { result ≡ slice_index_or entries.now i None }
{
    entries.get(i as usize).copied().unwrap_or(None)
}

/// The block that is number `i` of entries, from 0.
fn nth_block(entries: &[Option<Block>], i: u32) -> Option<Block>
    ensures { result ≡ slice_get (blocks_of entries.now) i }
{
    let mut left = i;
    let mut rest = entries;
    while let [entry, after @ ..] = rest {
        match entry {
            Some(block) => {
                if left == 0 {
                    return Some(*block);
                }
                left -= 1;
            }
            None => {}
        }
        rest = after;
    }
    None
}

/// From now on the entries up to `end` are kept, of a heap of `len` granules.
#[inline(always)]
fn reach(entries: &mut Vec<Option<Block>>, end: usize, len: usize)
    requires inside { end ≤ len }
    requires room { len ≤ vec_capacity entries.old }
    requires within { length entries.old.items ≤ len }
    ensures blocks { blocks_of entries.new.items ≡ blocks_of entries.old.items }
    ensures places { (low : ℕ) → AreAt low entries.old.items → AreAt low entries.new.items }
    ensures reached { end ≤ length entries.new.items }
    ensures within { length entries.new.items ≤ len }
    ensures room { len ≤ vec_capacity entries.new }
{
    if end > entries.len() {
        grow(entries, end, len);
    }
}

/// Keeps more of the entries of a heap of `len` granules: up to the next multiple of `GROWTH` after `end`, at most all.
#[cold]
#[inline(never)]
fn grow(entries: &mut Vec<Option<Block>>, end: usize, len: usize)
    requires more { length entries.old.items < end }
    requires inside { end ≤ len }
    requires room { len ≤ vec_capacity entries.old }
    ensures blocks { blocks_of entries.new.items ≡ blocks_of entries.old.items }
    ensures places { (low : ℕ) → AreAt low entries.old.items → AreAt low entries.new.items }
    ensures reached { end ≤ length entries.new.items }
    ensures within { length entries.new.items ≤ len }
    ensures room { len ≤ vec_capacity entries.new }
{
    let multiple = end.saturating_add(GROWTH - end % GROWTH);
    entries.resize(multiple.min(len), None).unwrap();
}
