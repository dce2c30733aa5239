ghost use Rattle.hw_base.specs.AddressMap.{granule_of, program_map, rounded_size};
ghost use Rattle.hw_base.specs.Bytes.{le_bytes, le_number};
ghost use Rattle.hw_base.specs.TaggedAddress.{address_of, pointer_tag};
ghost use Rattle.hw_shadow.specs.ObjectTags.{object_tags};
ghost use Rattle.tbi_memory.specs.declared.mem_fault.MemFault.{MemFault};
ghost use Rattle.tbi_memory.specs.declared.mem_fault.MemFault.TheVariants.{Unmapped};
ghost use Rattle.hw_shadow.specs.TagRule.{mismatch_in, granules_touched};
ghost use Rattle.tbi_memory.specs.AddressSpace.{space_at_start, last_byte, tag_at, check, read, meets_constants, write_fault, with_bytes, written, filled};
ghost use Rattle.tbi_memory.specs.MappedBytes.{byte_at, set_byte, read_bytes};
ghost use Rattle.tbi_memory.specs.MemoryParts.{bytes_or_zeros, check_one, number_read, passed_unless, with_tags};
ghost use Rattle.tbi_memory.specs.ObjectMemory.{tag_object, tag_plain, with_fresh_object};
ghost use Rattle.std.specs.Prelude.{◌≡◌, ℕ, ◌+◌, ◌-◌, ◌*◌, ◌/◌, ◌%◌, ◌^◌, ◌<◌, ◌≤◌, length, replicate, unwrap_or, is_ok, IfOk, IfNone, OnOk, Ok, Some, Err};

use crate::layout::Layout;
use crate::mapped_part::MappedPart;
use crate::mem_fault::MemFault;
use hw_base::{GLOBALS_AT, HEAP_AT, MOST_HEAP, MOST_TASKS, OutOfMemory, STACK_LENGTH, STACKS_AT};
use hw_shadow::{Mismatch, tags_agree};
use std::alloc::Global;
use std::marker::Model;

/// How many addresses there are: bits 55 to 0 of a number are its address.
const ADDRESSES: u64 = 0x100_0000_0000_0000;

/// The simulated memory. Contracts see it as the address space of its four parts. Bits 63 to 56 of a number that points into
/// it are ignored, but for the tag that `check` compares. Only `new` takes memory.
#[derive(Drop)]
pub struct Memory {
    pub(crate) constants: MappedPart,
    pub(crate) variables: MappedPart,
    pub(crate) stacks: MappedPart,
    pub(crate) heap: MappedPart,
}

impl Model for Memory {
    ghost use Rattle.tbi_memory.specs.AddressSpace.{AddressSpace};
    ghost use Rattle.tbi_memory.specs.MemoryParts.{space_of, AreInOrder};

    ghost Value = { AddressSpace };

    ghost view = { λ m. space_of m.constants m.variables m.stacks m.heap };

    ghost invariant = { λ m. AreInOrder m.constants m.variables m.stacks m.heap };
}

/// The address that a number points to.
#[inline(always)]
pub(crate) fn address(v: u64) -> u64
    ensures value { result ≡ address_of v }
    ensures below { result < 2 ^ 56 }
{
    v % ADDRESSES
}

/// How many granules `n` bytes from `a` on touch.
fn granules_touched(a: u64, n: u64) -> u64
    requires small { a < 2 ^ 56 }
    ensures value { result ≡ granules_touched a n }
    ensures end { a / 16 + result < 2 ^ 62 }
{
    if n == 0 {
        return 0;
    }
    let last = a as u128 + n as u128 - 1;
    (last / 16) as u64 + 1 - a / 16
}

impl Memory {
    /// The memory of a layout at the start: all bytes are zero, and all tags are 0. It fails only if memory runs out.
    pub fn new(alloc: Global, layout: &Layout) -> Result<Memory, OutOfMemory>
        requires constants_are_whole { layout.now.constants % 16 ≡ 0 }
        requires variables_are_placed { layout.now.variables_at % 16 ≡ 0 }
        requires variables_are_whole { layout.now.variables % 16 ≡ 0 }
        requires heap_is_whole { layout.now.heap % 16 ≡ 0 }
        requires constants_end { GLOBALS_AT + layout.now.constants ≤ layout.now.variables_at }
        requires variables_end { layout.now.variables_at + layout.now.variables ≤ STACKS_AT }
        requires heap_end { layout.now.heap ≤ MOST_HEAP }
        ensures start { IfOk result (λ m. m ≡ space_at_start (program_map layout.now.heap) layout.now) }
    {
        let constants = MappedPart::new(alloc, GLOBALS_AT, layout.constants)?;
        let variables = MappedPart::new(alloc, layout.variables_at, layout.variables)?;
        let stacks = MappedPart::new(alloc, STACKS_AT, MOST_TASKS as u64 * STACK_LENGTH)?;
        let heap = MappedPart::new(alloc, HEAP_AT, layout.heap)?;
        Ok(Memory {
            constants,
            variables,
            stacks,
            heap,
        })
    }

    /// Whether each of the `n` bytes from `v` on is mapped.
    pub fn is_mapped(&self, v: u64, n: u64) -> bool
        ensures { result ≡ is_ok (read self.now v n) }
    {
        let a = address(v);
        n <= self.mapped_until(a) - a
    }

    /// The number of the `n` bytes from `v` on, 1 to 16, the first of them the lowest. It fails with the first address of
    /// them that isn't mapped.
    #[inline(always)]
    pub fn read(&self, v: u64, n: u32) -> Result<u128, MemFault>
        requires some { 1 ≤ n }
        requires at_most_16 { n ≤ 16 }
        ensures number { result ≡ number_read (read self.now v n) }
        ensures below { IfOk result (λ x. x < 2 ^ (8 * n)) }
    {
        let a = address(v);
        if self.heap.holds(a, n as u64) {
            Ok(self.heap.bytes.get(a - self.heap.at, n))
        } else if self.stacks.holds(a, n as u64) {
            Ok(self.stacks.bytes.get(a - self.stacks.at, n))
        } else if self.variables.holds(a, n as u64) {
            Ok(self.variables.bytes.get(a - self.variables.at, n))
        } else if self.constants.holds(a, n as u64) {
            Ok(self.constants.bytes.get(a - self.constants.at, n))
        } else {
            self.read_across(v, n)
        }
    }

    /// Writes a number, below 2 to the power of 8 n, into the `n` bytes from `v` on, 1 to 16, its lowest byte first. It
    /// fails if one of them isn't mapped, or else if one is a constant's.
    #[inline(always)]
    pub fn write(&mut self, v: u64, n: u32, x: u128) -> Result<(), MemFault>
        requires some { 1 ≤ n }
        requires at_most_16 { n ≤ 16 }
        requires fits { x < 2 ^ (8 * n) }
        ensures ok { OnOk result (written self.old v (le_bytes n x) ≡ Ok self.new) }
        ensures err { (fault : MemFault) → result ≡ Err fault → (write_fault self.old v n ≡ Some fault) × (self.new ≡ self.old) }
    {
        let a = address(v);
        if self.heap.holds(a, n as u64) {
            self.heap.bytes.put(a - self.heap.at, n, x);
            Ok(())
        } else if self.stacks.holds(a, n as u64) {
            self.stacks.bytes.put(a - self.stacks.at, n, x);
            Ok(())
        } else if self.variables.holds(a, n as u64) {
            self.variables.bytes.put(a - self.variables.at, n, x);
            Ok(())
        } else {
            self.write_across(v, n, x)
        }
    }

    /// Tests the tags of the granules that `n` bytes from `v` on touch against the tag of `v`. It fails with the first that
    /// isn't mapped or doesn't agree. No bytes pass.
    #[inline(always)]
    pub fn check(&self, v: u64, n: u64) -> Result<(), Mismatch>
        ensures { result ≡ passed_unless (check self.now v n) }
    {
        let a = address(v);
        if 0 < n && n <= 16 - a % 16 {
            match self.tag_of(a / 16) {
                Some(memory) if memory as u64 == v / ADDRESSES => return Ok(()),
                _ => {}
            }
        }
        self.check_many(v, n)
    }

    /// Writes the byte `b` into each of the `n` bytes from `v` on. It fails if one of them isn't mapped, or else if one is a
    /// constant's.
    pub fn fill(&mut self, v: u64, n: u64, b: u8) -> Result<(), MemFault>
        ensures ok { OnOk result (filled self.old v n b ≡ Ok self.new) }
        ensures err { (fault : MemFault) → result ≡ Err fault → (write_fault self.old v n ≡ Some fault) × (self.new ≡ self.old) }
    {
        match self.refusal(v, n) {
            Some(fault) => return Err(fault),
            None => {}
        }
        self.put_all(address(v), n, b);
        Ok(())
    }

    /// Tests the tag of the granule that `v` points into against the tag of `v`, for an access of `n` bytes, 1 at least, that is
    /// taken to lie in that granule. It returns what the access finds there, or `None` if it passes.
    #[inline(always)]
    pub fn check_one(&self, v: u64, n: u64) -> Option<Mismatch>
        requires some { 1 ≤ n }
        ensures { result ≡ check_one self.now v n }
    {
        let granule = address(v) / 16;
        match self.tag_of(granule) {
            Some(memory) if memory as u64 == v / ADDRESSES => None,
            _ => self.mismatch_in(v, n, granule),
        }
    }

    /// Sets the tags of an object of `size` bytes at `at`, an address that is a multiple of 16, and the last byte of its
    /// short granule, if it has one.
    pub fn tag_object(&mut self, at: u64, size: u64, tag: u8)
        requires place { at % 16 ≡ 0 }
        requires end { at + size < 2 ^ 56 }
        ensures { self.new ≡ tag_object self.old at size tag }
    {
        self.paint(at / 16, size, tag);
        if size % 16 != 0 {
            self.set_byte(at + (size + 15) / 16 * 16 - 1, tag);
        }
    }

    /// An object of `size` bytes is born at `at`, an address that is a multiple of 16: zeros in its whole granules, and its
    /// tags.
    pub fn fresh_object(&mut self, at: u64, size: u64, tag: u8)
        requires place { at % 16 ≡ 0 }
        requires end { at + size < 2 ^ 56 }
        ensures { self.new ≡ with_fresh_object self.old at size tag }
    {
        self.put_all(at, (size.max(1) + 15) / 16 * 16, 0);
        self.tag_object(at, size, tag);
    }

    /// Sets one tag in all granules of `len` bytes from `at` on, both multiples of 16.
    pub fn tag_plain(&mut self, at: u64, len: u64, tag: u8)
        requires place { at % 16 ≡ 0 }
        requires whole { len % 16 ≡ 0 }
        requires end { at + len < 2 ^ 56 }
        ensures { self.new ≡ tag_plain self.old at len tag }
    {
        let first = at / 16;
        let count = len / 16;
        if self.heap.holds_granules(first, count) {
            self.heap.tags.plain(first - self.heap.at / 16, count, tag);
        } else if self.stacks.holds_granules(first, count) {
            self.stacks
                .tags
                .plain(first - self.stacks.at / 16, count, tag);
        } else {
            self.plain_each(first, count, tag);
        }
    }

    /// Writes a number, below 2 to the power of 8 n, into the `n` bytes from `at` on, 1 to 16, constants or not. Bytes that
    /// aren't mapped are left out.
    pub fn load_global(&mut self, at: u64, n: u32, x: u128)
        requires some { 1 ≤ n }
        requires at_most_16 { n ≤ 16 }
        requires fits { x < 2 ^ (8 * n) }
        requires small { at < 2 ^ 56 }
        ensures { self.new ≡ with_bytes self.old at (le_bytes n x) }
    {
        self.put_each(at, n, x);
    }

    /// The tag of the granule that `v` points into, or `None` if it isn't mapped.
    pub fn tag_at(&self, v: u64) -> Option<u8>
        ensures { result ≡ tag_at self.now v }
    {
        self.tag_of(address(v) / 16)
    }

    /// The tag of a granule by its number.
    #[inline(always)]
    fn tag_of(&self, granule: u64) -> Option<u8>
        ensures tag { result ≡ byte_at self.now.shadow granule }
        ensures inside { (memory : ℕ) → result ≡ Some memory → granule < 2 ^ 52 }
    {
        if self.heap.at / 16 <= granule {
            self.heap.tag(granule)
        } else if self.stacks.at / 16 <= granule {
            self.stacks.tag(granule)
        } else if self.variables.at / 16 <= granule {
            self.variables.tag(granule)
        } else {
            self.constants.tag(granule)
        }
    }

    /// The byte at an address.
    fn byte_of(&self, a: u64) -> Option<u8>
        ensures { result ≡ byte_at self.now.bytes a }
    {
        if self.heap.at <= a {
            self.heap.byte(a)
        } else if self.stacks.at <= a {
            self.stacks.byte(a)
        } else if self.variables.at <= a {
            self.variables.byte(a)
        } else {
            self.constants.byte(a)
        }
    }

    /// The byte at an address, or 0 if it isn't mapped.
    pub(crate) fn byte_or_zero(&self, a: u64) -> u8
        ensures { result ≡ unwrap_or (byte_at self.now.bytes a) 0 }
    {
        match self.byte_of(a) {
            Some(byte) => byte,
            None => 0,
        }
    }

    /// Writes the byte at an address, if it is mapped.
    pub(crate) fn set_byte(&mut self, a: u64, byte: u8)
        ensures { self.new ≡ record self.old { bytes = set_byte self.old.bytes a byte } }
    {
        self.constants.set_byte(a, byte);
        self.variables.set_byte(a, byte);
        self.stacks.set_byte(a, byte);
        self.heap.set_byte(a, byte);
    }

    /// Sets the tag of a granule, if it is mapped.
    fn set_tag(&mut self, granule: u64, tag: u8)
        ensures { self.new ≡ record self.old { shadow = set_byte self.old.shadow granule tag } }
    {
        self.constants.set_tag(granule, tag);
        self.variables.set_tag(granule, tag);
        self.stacks.set_tag(granule, tag);
        self.heap.set_tag(granule, tag);
    }

    /// The first address from `a` on that isn't mapped.
    pub(crate) fn mapped_until(&self, a: u64) -> u64
        requires small { a < 2 ^ 56 }
        ensures not_before { a ≤ result }
        ensures far { (n : ℕ) → n ≤ result - a → read_bytes self.now.bytes a n ≡ Ok (bytes_or_zeros self.now.bytes a n) }
        ensures near { (n : ℕ) → result - a < n → read_bytes self.now.bytes a n ≡ Err (Unmapped result) }
    {
        let after_constants = self.constants.past(a);
        let after_variables = self.variables.past(after_constants);
        let after_stacks = self.stacks.past(after_variables);
        self.heap.past(after_stacks)
    }

    /// The read of bytes that don't lie in one part.
    #[inline(never)]
    fn read_across(&self, v: u64, n: u32) -> Result<u128, MemFault>
        requires some { 1 ≤ n }
        requires at_most_16 { n ≤ 16 }
        ensures number { result ≡ number_read (read self.now v n) }
        ensures below { IfOk result (λ x. x < 2 ^ (8 * n)) }
    {
        let a = address(v);
        let until = self.mapped_until(a);
        if until - a < n as u64 {
            return Err(MemFault::Unmapped(until));
        }
        Ok(self.number_of(a, n))
    }

    /// The number of the `n` bytes from `a` on, each taken by itself; one that isn't mapped counts as 0.
    fn number_of(&self, a: u64, n: u32) -> u128
        requires at_most_16 { n ≤ 16 }
        requires small { a < 2 ^ 56 }
        ensures number { result ≡ le_number (bytes_or_zeros self.now.bytes a n) }
        ensures below { result < 2 ^ (8 * n) }
    {
        let mut value = 0u128;
        let mut i = n;
        while i > 0 {
            i -= 1;
            value = value * 256 + self.byte_or_zero(a + i as u64) as u128;
        }
        value
    }

    /// The write of bytes that don't lie in one part that can be written.
    #[inline(never)]
    fn write_across(&mut self, v: u64, n: u32, x: u128) -> Result<(), MemFault>
        requires some { 1 ≤ n }
        requires at_most_16 { n ≤ 16 }
        requires fits { x < 2 ^ (8 * n) }
        ensures ok { OnOk result (written self.old v (le_bytes n x) ≡ Ok self.new) }
        ensures err { (fault : MemFault) → result ≡ Err fault → (write_fault self.old v n ≡ Some fault) × (self.new ≡ self.old) }
    {
        match self.refusal(v, n as u64) {
            Some(fault) => return Err(fault),
            None => {}
        }
        self.put_each(address(v), n, x);
        Ok(())
    }

    /// Why `n` bytes from `v` on can't be written, if they can't.
    pub(crate) fn refusal(&self, v: u64, n: u64) -> Option<MemFault>
        ensures fault { result ≡ write_fault self.now v n }
        ensures end { IfNone result (address_of v + n < 2 ^ 64) }
    {
        let a = address(v);
        let until = self.mapped_until(a);
        if until - a < n {
            return Some(MemFault::Unmapped(until));
        }
        if self.meets_constants(a, n) {
            return Some(MemFault::ReadOnly);
        }
        None
    }

    /// Whether one of the `n` bytes from `a` on is a constant's.
    fn meets_constants(&self, a: u64, n: u64) -> bool
        requires small { a + n < 2 ^ 64 }
        ensures { result ≡ meets_constants self.now a n }
    {
        0 < n && a < self.constants.at + self.constants.bytes.len() && self.constants.at < a + n
    }

    /// Writes a number's bytes one by one.
    fn put_each(&mut self, a: u64, n: u32, x: u128)
        requires at_most_16 { n ≤ 16 }
        requires small { a < 2 ^ 56 }
        ensures { self.new ≡ with_bytes self.old a (le_bytes n x) }
    {
        let mut rest = x;
        let mut i = 0;
        while i < n {
            self.set_byte(a + i as u64, (rest % 256) as u8);
            rest /= 256;
            i += 1;
        }
    }

    /// The test of an access that its first granule doesn't settle. Where one part has all its granules, their tags alone
    /// mostly settle it.
    #[inline(never)]
    fn check_many(&self, v: u64, n: u64) -> Result<(), Mismatch>
        ensures { result ≡ passed_unless (check self.now v n) }
    {
        let a = address(v);
        let count = granules_touched(a, n);
        let tag = (v / ADDRESSES) as u8;
        if self.heap.all_tagged(a / 16, count, tag) {
            return Ok(());
        }
        if self.stacks.all_tagged(a / 16, count, tag) {
            return Ok(());
        }
        self.check_each(v, n)
    }

    /// Writes one byte into each of `n` bytes.
    fn put_all(&mut self, a: u64, n: u64, b: u8)
        requires small { a + n < 2 ^ 64 }
        ensures { self.new ≡ with_bytes self.old a (replicate n b) }
    {
        if self.heap.holds(a, n) {
            self.heap.bytes.fill(a - self.heap.at, n, b);
        } else if self.stacks.holds(a, n) {
            self.stacks.bytes.fill(a - self.stacks.at, n, b);
        } else {
            self.fill_each(a, n, b);
        }
    }

    /// Writes one byte into bytes one by one.
    fn fill_each(&mut self, a: u64, n: u64, b: u8)
        requires small { a + n < 2 ^ 64 }
        ensures { self.new ≡ with_bytes self.old a (replicate n b) }
    {
        let mut i = 0;
        while i < n {
            self.set_byte(a + i, b);
            i += 1;
        }
    }

    /// Tests granule by granule.
    fn check_each(&self, v: u64, n: u64) -> Result<(), Mismatch>
        ensures { result ≡ passed_unless (check self.now v n) }
    {
        let a = address(v);
        let mut granule = a / 16;
        let mut left = granules_touched(a, n);
        while left > 0 {
            match self.mismatch_in(v, n, granule) {
                Some(found) => return Err(found),
                None => {}
            }
            granule += 1;
            left -= 1;
        }
        Ok(())
    }

    /// What an access finds in a granule that it touches, or `None` if the granule agrees.
    #[inline(never)]
    fn mismatch_in(&self, v: u64, n: u64, granule: u64) -> Option<Mismatch>
        requires in_space { granule ≤ 2 ^ 52 }
        requires touched { 16 * granule < address_of v + n }
        ensures found { result ≡ mismatch_in v n granule (byte_at self.now.shadow granule) (last_byte self.now.bytes granule) }
        ensures inside { IfNone result (granule < 2 ^ 52) }
    {
        let a = address(v);
        let memory = match self.tag_of(granule) {
            Some(memory) => memory,
            None => return Some(Mismatch::Unmapped(a.max(16 * granule))),
        };
        let last = self.byte_or_zero(16 * granule + 15);
        let pointer = (v / ADDRESSES) as u8;
        let end = (a as u128 + n as u128 - 16 * granule as u128).min(16) as u8;
        if tags_agree(pointer, memory, end, last) {
            return None;
        }
        Some(Mismatch::Tags {
            granule: 16 * granule,
            pointer,
            memory,
            last,
            end,
        })
    }

    /// Sets the tags of an object's granules, from the granule `first` on.
    fn paint(&mut self, first: u64, size: u64, tag: u8)
        requires end { first + size < 2 ^ 57 }
        ensures { self.new ≡ with_tags self.old first (object_tags size tag) }
    {
        let count = (size.max(1) + 15) / 16;
        if self.heap.holds_granules(first, count) {
            self.heap.tags.paint(first - self.heap.at / 16, size, tag);
        } else if self.stacks.holds_granules(first, count) {
            self.stacks
                .tags
                .paint(first - self.stacks.at / 16, size, tag);
        } else {
            self.paint_each(first, size, tag);
        }
    }

    /// Sets the tags of an object's granules one by one.
    fn paint_each(&mut self, first: u64, size: u64, tag: u8)
        requires end { first + size < 2 ^ 57 }
        ensures { self.new ≡ with_tags self.old first (object_tags size tag) }
    {
        self.plain_each(first, size / 16, tag);
        if size % 16 != 0 || size == 0 {
            self.set_tag(first + size / 16, (size % 16) as u8);
        }
    }

    /// Sets one tag in granules one by one.
    fn plain_each(&mut self, first: u64, count: u64, tag: u8)
        requires end { first + count < 2 ^ 57 }
        ensures { self.new ≡ with_tags self.old first (replicate count tag) }
    {
        let mut i = 0;
        while i < count {
            self.set_tag(first + i, tag);
            i += 1;
        }
    }
}
