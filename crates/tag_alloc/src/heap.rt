ghost use Rattle.std.specs.Prelude.{◌≡◌, ℕ, ◌+◌, ◌-◌, ◌*◌, ◌%◌, ◌^◌, ◌<◌, ◌≤◌, ◌==◌, [], ◌∷◌, length, slice_get, slice_set, take, unwrap_or, IfNone, IfOk, IfSome, IsOk, OnErr, OnOk, None, Some, Ok, Err};
ghost use Rattle.std.specs.List.{find};
ghost use Rattle.hw_base.specs.AddressMap.{rounded_size};
ghost use Rattle.hw_base.specs.declared.endings.Full.{Full};
ghost use Rattle.hw_holes.specs.FreeRanges.{place_for, taken};
ghost use Rattle.hw_tags.specs.Words.{coming};
ghost use Rattle.tag_alloc.specs.declared.blocks.Block.{Block};
ghost use Rattle.tag_alloc.specs.declared.blocks.FreeMismatch.{FreeMismatch};
ghost use Rattle.tag_alloc.specs.HeapBlocks.{block_at, block_number, free_mismatch, freed_block, freed_by, with_task};
ghost use Rattle.tag_alloc.specs.HeapSteps.{after_death, allocated};
ghost use Rattle.tag_alloc.specs.HeapView.{KeepAtMost, kept_of, ok_unless};

use crate::block_table::BlockTable;
use crate::blocks::{Block, FreeMismatch, Freed};
use free_ring::Ring;
use hw_base::{Full, OutOfMemory, Space};
use hw_holes::Holes;
use hw_tags::{Words, free_tag, heap_tag};
use std::alloc::Global;
use std::marker::Model;
use tbi_memory::Memory;

/// How many addresses there are: bits 55 to 0 of a number are its address.
const ADDRESSES: u64 = 0x100_0000_0000_0000;

/// The greatest size that is tried, in bytes: no heap is longer.
const MOST_BLOCK: u128 = 0x1_0000_0000;

/// The heap of a run: its living blocks, its free ranges, and the blocks that each task freed. Contracts see the definitions'
/// state of the heap, and for how many deaths there is room. A task is named by its number, counted from 0 in order of start.
#[derive(Drop)]
pub struct Heap {
    table: BlockTable,
    holes: Holes,
    living_size: u64,
    rings: Vec<Ring<Freed>>,
    ring: u32,
    alloc: Global,
}

impl Model for Heap {
    ghost use Rattle.std.specs.Prelude.{◌≤◌};
    ghost use Rattle.tag_alloc.specs.HeapView.{AreTables, HeapView, KeepAtMost, view_of};

    ghost Value = { HeapView };

    ghost view = { λ h. view_of h.table h.holes h.living_size h.rings.items h.ring };

    ghost invariant = { λ h. AreTables h.table h.holes h.living_size × KeepAtMost h.ring h.rings.items × (1 ≤ h.ring) };
}

impl Heap {
    /// A heap of `len` bytes from the address `lo` on, both multiples of 16, without blocks and tasks. Each of its tasks will
    /// remember at most `ring` freed blocks. It fails only if memory runs out.
    pub fn new(alloc: Global, lo: u64, len: u64, ring: u32) -> Result<Heap, OutOfMemory>
        requires lo_in_steps { lo % 16 ≡ 0 }
        requires len_in_steps { len % 16 ≡ 0 }
        requires not_empty { 16 ≤ len }
        requires end { lo + len ≤ 2 ^ 32 }
        requires ring { 1 ≤ ring }
        ensures { IfOk result (λ heap. heap.state
            ≡ record { from = lo; end = lo + len; living = []; living_size = 0; freed = []; ring = ring }) }
    {
        let table = BlockTable::new(alloc, lo, len)?;
        let holes = Holes::new(alloc, lo, lo + len)?;
        Ok(Heap {
            table,
            holes,
            living_size: 0,
            rings: Vec::new(alloc),
            ring,
            alloc,
        })
    }

    /// One more task, which has freed nothing. The only error is that memory ran out, after which the heap is as before.
    pub fn add_task(&mut self) -> Result<(), OutOfMemory>
        ensures ok { OnOk result (self.new.state ≡ with_task self.old.state) }
        ensures deaths { self.new.deaths ≡ self.old.deaths }
        ensures err { OnErr result (self.new ≡ self.old) }
    {
        let ring = match Ring::new(self.alloc, self.ring) {
            Ok(ring) => ring,
            Err(error) => return Err(error),
        };
        match self.rings.push(ring) {
            Ok(()) => Ok(()),
            Err(_) => Err(OutOfMemory),
        }
    }

    /// Makes room for one death at least. The state stays, whether there is memory or not. It takes none if there is room.
    pub fn reserve(&mut self) -> Result<(), OutOfMemory>
        ensures room { OnOk result (1 ≤ self.new.deaths) }
        ensures state { self.new.state ≡ self.old.state }
        ensures deaths { self.old.deaths ≤ self.new.deaths }
        ensures enough { 1 ≤ self.old.deaths → IsOk result }
    {
        self.holes.reserve()
    }

    /// The birth of a block of `size` bytes, for the number of the birth and the chain of the call. It draws the word of the
    /// block's tag, and the block is zero and tagged in memory. The result is the tagged address of its first byte. The error
    /// is that the heap has no place for it; then nothing changes, and no word is drawn. It takes no memory of the host. It
    /// passes the free ranges before the block's place.
    pub fn malloc(
        &mut self,
        mem: &mut Memory,
        words: &mut Words,
        size: u128,
        birth: u32,
        born: u32,
    ) -> Result<u64, Full>
        ensures ok { IfOk result (λ number. allocated self.old.state mem.old (coming words.old 0) size birth born
            ≡ Ok (record { heap = self.new.state; space = mem.new; number = number })) }
        ensures word { OnOk result ((k : ℕ) → coming words.new k ≡ coming words.old (k + 1)) }
        ensures full { (full : Full) → result ≡ Err full
            → (word : ℕ) → allocated self.old.state mem.old word size birth born ≡ Err full }
        ensures unchanged { OnErr result ((self.new ≡ self.old) × (mem.new ≡ mem.old) × (words.new ≡ words.old)) }
        ensures deaths { self.old.deaths ≤ self.new.deaths }
        ensures tasks { length self.new.state.freed ≡ length self.old.state.freed }
    {
        match take_place(&mut self.holes, size) {
            None => Err(Full {
                space: Space::Heap,
                asked: size,
                living: self.living_size,
            }),
            Some(at) => {
                let block = Block {
                    at,
                    size: size as u64,
                    tag: heap_tag(words.next()),
                    birth,
                    born,
                };
                self.table.put(block);
                self.living_size += rounded(block.size);
                mem.fresh_object(at, block.size, block.tag);
                Ok(number_of(&block))
            }
        }
    }

    /// Whether a number may be freed: it is 0, or the tagged address of a living block's first byte. The error is what a free
    /// of any other number finds.
    pub fn may_free(&self, number: u64) -> Result<(), FreeMismatch>
        ensures { result ≡ ok_unless (free_mismatch self.now.state number) tt }
    {
        match self.to_free(number) {
            Ok(_) => Ok(()),
            Err(mismatch) => Err(mismatch),
        }
    }

    /// The block that a free of a number ends, or none if the number is 0. The error is what refuses the free, as for `may_free`.
    pub fn to_free(&self, number: u64) -> Result<Option<Block>, FreeMismatch>
        ensures { result ≡ ok_unless (free_mismatch self.now.state number) (freed_block self.now.state number) }
    {
        if number == 0 {
            return Ok(None);
        }
        let pointer = (number / ADDRESSES) as u8;
        match self.table.at(number % ADDRESSES) {
            None => Err(FreeMismatch {
                pointer,
                block: None,
            }),
            Some(block) => {
                if block.tag == pointer {
                    Ok(Some(block))
                } else {
                    Err(FreeMismatch {
                        pointer,
                        block: Some(block.tag),
                    })
                }
            }
        }
    }

    /// A task frees a number, for the chain of the call. The block that begins there ends: it draws the word of its granules'
    /// new tag, and the task remembers the block. A free of 0 changes nothing. The error is what refuses the free, as for
    /// `may_free`; then nothing changes either, and no word is drawn. It takes no memory of the host. It passes the free ranges
    /// before the block's place.
    pub fn free(
        &mut self,
        mem: &mut Memory,
        words: &mut Words,
        number: u64,
        task: u32,
        died: u32,
    ) -> Result<(), FreeMismatch>
        requires room { 1 ≤ self.old.deaths }
        requires task { task < length self.old.state.freed }
        ensures result { result ≡ ok_unless (free_mismatch self.old.state number) tt }
        ensures unchanged { OnErr result ((self.new ≡ self.old) × (mem.new ≡ mem.old) × (words.new ≡ words.old)) }
        ensures null { freed_block self.old.state number ≡ None
            → (self.new ≡ self.old) × (mem.new ≡ mem.old) × (words.new ≡ words.old) }
        ensures death { (block : Block) → freed_block self.old.state number ≡ Some block
            → OnOk result (after_death self.old.state mem.old (coming words.old 0) task died block
            ≡ record { heap = self.new.state; space = mem.new }) }
        ensures word { (block : Block) → freed_block self.old.state number ≡ Some block
            → OnOk result ((k : ℕ) → coming words.new k ≡ coming words.old (k + 1)) }
        ensures deaths { self.old.deaths ≤ self.new.deaths + 1 }
        ensures tasks { length self.new.state.freed ≡ length self.old.state.freed }
    {
        match self.to_free(number) {
            Err(mismatch) => Err(mismatch),
            Ok(None) => Ok(()),
            Ok(Some(block)) => {
                self.end_block(mem, words, block, task, died);
                Ok(())
            }
        }
    }

    /// The living block that begins at an address, or none.
    pub fn block_at(&self, address: u64) -> Option<Block>
        ensures { result ≡ block_at self.now.state address }
    {
        self.table.at(address)
    }

    /// The living block that is number `i`, from 0, in order of place, or none exactly if there are at most `i`. It looks at
    /// each granule up to the block's.
    pub fn living(&self, i: u32) -> Option<Block>
        ensures { result ≡ slice_get self.now.state.living i }
    {
        self.table.nth(i)
    }

    /// The block that is number `i`, from 0, of those that a task freed, counted from the newest, or none exactly if at most
    /// `i` are remembered.
    pub fn freed(&self, task: u32, i: u32) -> Option<Freed>
        ensures { result ≡ slice_get (freed_by self.now.state task) i }
    {
        match self.rings.get(task as usize) {
            Some(ring) => ring.newest_first(i),
            None => None,
        }
    }

    /// The death of a living block, in a task, for the chain of the call that frees it.
    fn end_block(&mut self, mem: &mut Memory, words: &mut Words, block: Block, task: u32, died: u32)
        requires room { 1 ≤ self.old.deaths }
        requires task { task < length self.old.state.freed }
        requires living { find (λ other. other.at == block.at) self.old.state.living ≡ Some block }
        ensures death { after_death self.old.state mem.old (coming words.old 0) task died block
            ≡ record { heap = self.new.state; space = mem.new } }
        ensures word { (k : ℕ) → coming words.new k ≡ coming words.old (k + 1) }
        ensures deaths { self.old.deaths ≤ self.new.deaths + 1 }
        ensures tasks { length self.new.state.freed ≡ length self.old.state.freed }
    {
        self.table.remove(block.at);
        let size = rounded(block.size);
        self.holes.give(block.at, size);
        self.living_size -= size;
        remember(&mut self.rings, task, Freed { block, died });
        mem.tag_plain(block.at, size, free_tag(words.next(), block.tag));
    }
}

/// A task remembers a block that it freed as the newest.
fn remember(rings: &mut Vec<Ring<Freed>>, task: u32, freed: Freed)
    requires { task < length rings.old.items }
    ensures kept { (ring : ℕ) → KeepAtMost ring rings.old.items
        → kept_of rings.new.items ≡ slice_set (kept_of rings.old.items) task
        (take ring (freed ∷ unwrap_or (slice_get (kept_of rings.old.items) task) [])) }
    ensures rings { (ring : ℕ) → KeepAtMost ring rings.old.items → KeepAtMost ring rings.new.items }
    ensures count { length (kept_of rings.new.items) ≡ length (kept_of rings.old.items) }
{
    rings[task as usize].push(freed);
}

/// The tagged address of a block's first byte.
fn number_of(block: &Block) -> u64
    requires { block.now.at < 2 ^ 32 }
    ensures { result ≡ block_number block.now }
{
    block.tag as u64 * ADDRESSES + block.at
}

/// The bytes that a block takes: whole granules, and at least one.
fn rounded(size: u64) -> u64
    requires { size ≤ 2 ^ 32 }
    ensures value { result ≡ rounded_size size }
    ensures whole { result % 16 ≡ 0 }
    ensures some { 16 ≤ result }
{
    if size == 0 { 16 } else { (size + 15) / 16 * 16 }
}

/// Takes the lowest place that is free for a block of `size` bytes. With no such place nothing changes.
fn take_place(holes: &mut Holes, size: u128) -> Option<u64>
    requires { holes.old.high ≤ 2 ^ 32 }
    ensures place { result ≡ place_for (rounded_size size) holes.old.ranges }
    ensures ranges { holes.new.ranges ≡ taken (rounded_size size) holes.old.ranges }
    ensures unchanged { IfNone result (holes.new ≡ holes.old) }
    ensures small { IfSome result (λ _. size ≤ 2 ^ 32) }
    ensures spare { holes.old.spare ≤ holes.new.spare }
    ensures low { holes.new.low ≡ holes.old.low }
    ensures high { holes.new.high ≡ holes.old.high }
{
    if size > MOST_BLOCK {
        holes.are_apart();
        return None;
    }
    holes.take(rounded(size as u64))
}
