ghost use Rattle.hw_base.specs.TaggedAddress.{address_of};
ghost use Rattle.tbi_memory.specs.declared.mem_fault.MemFault.{MemFault};
ghost use Rattle.tbi_memory.specs.AddressSpace.{moved, with_bytes};
ghost use Rattle.tbi_memory.specs.MemoryParts.{bytes_or_zeros};
ghost use Rattle.std.specs.Prelude.{◌≡◌, ℕ, ◌+◌, ◌^◌, ◌<◌, ◌≤◌, true, false, OnOk, Ok, Err};

use crate::mem_fault::MemFault;
use crate::memory::{Memory, address};

impl Memory {
    /// Copies the `n` bytes from `from` on to `to`, as if all were read first: the two runs may overlap. It fails if one of
    /// the bytes from `from` on isn't mapped, or else if one of those from `to` on isn't, or else if one of the latter is a
    /// constant's. Then nothing changes.
    pub fn move_bytes(&mut self, to: u64, from: u64, n: u64) -> Result<(), MemFault>
        ensures ok { OnOk result (moved self.old to from n ≡ Ok self.new) }
        ensures err { (fault : MemFault) → result ≡ Err fault → (moved self.old to from n ≡ Err fault) × (self.new ≡ self.old) }
    {
        let source = address(from);
        let until = self.mapped_until(source);
        if until - source < n {
            return Err(MemFault::Unmapped(until));
        }
        match self.refusal(to, n) {
            Some(fault) => return Err(fault),
            None => {}
        }
        self.copy_run(address(to), source, n);
        Ok(())
    }

    /// Copies the `n` bytes from the address `from` on to the address `to`, constants or not. A byte that isn't mapped is
    /// read as 0, and isn't written.
    fn copy_run(&mut self, to: u64, from: u64, n: u64)
        requires small_to { to + n < 2 ^ 64 }
        requires small_from { from + n < 2 ^ 64 }
        ensures { self.new ≡ with_bytes self.old to (bytes_or_zeros self.old.bytes from n) }
    {
        if self.copies_to_heap(to, from, n) {
            return;
        }
        if self.copies_to_stacks(to, from, n) {
            return;
        }
        if self.copies_to_variables(to, from, n) {
            return;
        }
        self.copy_each(to, from, n);
    }

    /// Copies into the heap, if all bytes from `to` on lie there and all from `from` on in one part. It returns whether they do.
    fn copies_to_heap(&mut self, to: u64, from: u64, n: u64) -> bool
        requires small_to { to + n < 2 ^ 64 }
        requires small_from { from + n < 2 ^ 64 }
        ensures copied { result ≡ true → self.new ≡ with_bytes self.old to (bytes_or_zeros self.old.bytes from n) }
        ensures left { result ≡ false → self.new ≡ self.old }
    {
        if !self.heap.holds(to, n) {
            return false;
        }
        let place = to - self.heap.at;
        if self.heap.holds(from, n) {
            self.heap.bytes.copy(from - self.heap.at, place, n);
            true
        } else if self.stacks.holds(from, n) {
            self.heap
                .bytes
                .copy_from(&self.stacks.bytes, from - self.stacks.at, place, n);
            true
        } else if self.variables.holds(from, n) {
            self.heap
                .bytes
                .copy_from(&self.variables.bytes, from - self.variables.at, place, n);
            true
        } else if self.constants.holds(from, n) {
            self.heap
                .bytes
                .copy_from(&self.constants.bytes, from - self.constants.at, place, n);
            true
        } else {
            false
        }
    }

    /// Copies into the stacks, if all bytes from `to` on lie there and all from `from` on in one part. It returns whether they do.
    fn copies_to_stacks(&mut self, to: u64, from: u64, n: u64) -> bool
        requires small_to { to + n < 2 ^ 64 }
        requires small_from { from + n < 2 ^ 64 }
        ensures copied { result ≡ true → self.new ≡ with_bytes self.old to (bytes_or_zeros self.old.bytes from n) }
        ensures left { result ≡ false → self.new ≡ self.old }
    {
        if !self.stacks.holds(to, n) {
            return false;
        }
        let place = to - self.stacks.at;
        if self.stacks.holds(from, n) {
            self.stacks.bytes.copy(from - self.stacks.at, place, n);
            true
        } else if self.heap.holds(from, n) {
            self.stacks
                .bytes
                .copy_from(&self.heap.bytes, from - self.heap.at, place, n);
            true
        } else if self.variables.holds(from, n) {
            self.stacks
                .bytes
                .copy_from(&self.variables.bytes, from - self.variables.at, place, n);
            true
        } else if self.constants.holds(from, n) {
            self.stacks
                .bytes
                .copy_from(&self.constants.bytes, from - self.constants.at, place, n);
            true
        } else {
            false
        }
    }

    /// Copies into the variables, if all bytes from `to` on lie there and all from `from` on in one part. It returns whether they do.
    fn copies_to_variables(&mut self, to: u64, from: u64, n: u64) -> bool
        requires small_to { to + n < 2 ^ 64 }
        requires small_from { from + n < 2 ^ 64 }
        ensures copied { result ≡ true → self.new ≡ with_bytes self.old to (bytes_or_zeros self.old.bytes from n) }
        ensures left { result ≡ false → self.new ≡ self.old }
    {
        if !self.variables.holds(to, n) {
            return false;
        }
        let place = to - self.variables.at;
        if self.variables.holds(from, n) {
            self.variables
                .bytes
                .copy(from - self.variables.at, place, n);
            true
        } else if self.heap.holds(from, n) {
            self.variables
                .bytes
                .copy_from(&self.heap.bytes, from - self.heap.at, place, n);
            true
        } else if self.stacks.holds(from, n) {
            self.variables
                .bytes
                .copy_from(&self.stacks.bytes, from - self.stacks.at, place, n);
            true
        } else if self.constants.holds(from, n) {
            self.variables
                .bytes
                .copy_from(&self.constants.bytes, from - self.constants.at, place, n);
            true
        } else {
            false
        }
    }

    /// Copies bytes one by one, from the end that isn't overwritten before it is read.
    fn copy_each(&mut self, to: u64, from: u64, n: u64)
        requires small_to { to + n < 2 ^ 64 }
        requires small_from { from + n < 2 ^ 64 }
        ensures { self.new ≡ with_bytes self.old to (bytes_or_zeros self.old.bytes from n) }
    {
        if to <= from {
            self.copy_upwards(to, from, n);
        } else {
            self.copy_downwards(to, from, n);
        }
    }

    /// Copies bytes one by one to lower addresses, the first of them first.
    fn copy_upwards(&mut self, to: u64, from: u64, n: u64)
        requires lower { to ≤ from }
        requires small { from + n < 2 ^ 64 }
        ensures { self.new ≡ with_bytes self.old to (bytes_or_zeros self.old.bytes from n) }
    {
        let mut i = 0;
        while i < n {
            let byte = self.byte_or_zero(from + i);
            self.set_byte(to + i, byte);
            i += 1;
        }
    }

    /// Copies bytes one by one to higher addresses, the last of them first.
    fn copy_downwards(&mut self, to: u64, from: u64, n: u64)
        requires higher { from < to }
        requires small { to + n < 2 ^ 64 }
        ensures { self.new ≡ with_bytes self.old to (bytes_or_zeros self.old.bytes from n) }
    {
        let mut i = n;
        while i > 0 {
            i -= 1;
            let byte = self.byte_or_zero(from + i);
            self.set_byte(to + i, byte);
        }
    }
}
