ghost use Rattle.std.specs.Prelude.{◌≡◌, ◌^◌, ◌<◌, ◌≤◌, ◌↔◌, [], ◌∷◌, length, take, slice_get, IfOk, IsNone};

use circular_buffer::HeapCircularBuffer;
use hw_base::OutOfMemory;
use std::alloc::Global;
use std::marker::Model;

/// The last records, at most `size` of them. Contracts see the size and the kept records, the newest first.
#[derive(Drop)]
pub struct Ring<R: Copy> {
    records: HeapCircularBuffer<R>,
}

impl<R: Copy> Model for Ring<R> {
    ghost use Rattle.free_ring.specs.Kept.{Kept, kept_code};

    ghost Value = { Kept R };

    ghost coded = { kept_code R.code };

    ghost use Rattle.std.specs.Prelude.{◌^◌, ◌<◌, ◌≤◌, length};

    ghost view = { λ r. record { size = r.records.capacity; kept = r.records.items } };

    ghost invariant = { λ r. (1 ≤ r.records.capacity) × (r.records.capacity < 2 ^ 32) × (length r.records.items ≤ r.records.capacity) };
}

impl<R: Copy> Ring<R> {
    /// A ring that keeps the last `size` records, and has none yet. The room for all of them is taken here, at once, and no
    /// byte of it is touched before it is used. `size` is from 1 to 2^32 - 1.
    pub fn new(alloc: Global, size: u32) -> Result<Ring<R>, OutOfMemory>
        requires { 1 ≤ size }
        ensures size { IfOk result (λ ring. ring.size ≡ size) }
        ensures empty { IfOk result (λ ring. ring.kept ≡ []) }
    {
        let records = HeapCircularBuffer::with_capacity(alloc, size as usize)?;
        Ok(Ring { records })
    }

    /// Remembers a record as the newest. If as many were kept as may be, the oldest is dropped. It takes no memory.
    pub fn push(&mut self, newest: R)
        ensures kept { self.new.kept ≡ take self.old.size (newest ∷ self.old.kept) }
        ensures size { self.new.size ≡ self.old.size }
    {
        self.records.push_front(newest);
    }

    /// The record that is number `i`, from 0, counted from the newest: none exactly if at most `i` records are kept.
    pub fn newest_first(&self, i: u32) -> Option<R>
        ensures value { result ≡ slice_get self.now.kept i }
        ensures none { IsNone result ↔ (length self.now.kept ≤ i) }
    {
        self.records.get(i as usize).copied()
    }

    /// How many records are kept: at most the size.
    pub fn len(&self) -> u32
        ensures len { result ≡ length self.now.kept }
        ensures within { (result ≤ self.now.size) × (1 ≤ self.now.size) × (self.now.size < 2 ^ 32) }
    {
        self.records.len() as u32
    }
}
