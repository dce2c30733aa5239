ghost use Rattle.hw_base.specs.Bytes.{le_bytes, le_number};
ghost use Rattle.hw_region.specs.RegionBytes.{bytes_from, with_bytes_at, zeros_after};
ghost use Rattle.std.specs.Prelude.{◌≡◌, ℕ, ◌+◌, ◌-◌, ◌*◌, ◌^◌, ◌<◌, ◌≤◌, List, ◌++◌, length, drop, min, replicate, slice_get, vec_capacity, IfOk, Some};

use hw_base::OutOfMemory;
use std::alloc::Global;
use std::marker::Model;

/// The kept bytes grow to a multiple of this many, or to all bytes of the region.
const GROWTH: usize = 4_096;

/// The bytes of one region of the simulated memory. Contracts see it as the list of its bytes. Places and counts are in bytes,
/// and places are counted from 0. Numbers are little endian, as on AArch64 (Arm Architecture Reference Manual, "Endian
/// support"). The length never changes, and only `new` takes memory. Only the bytes up to the highest place that was written
/// are kept: all after them are zero. So `new` takes room for all bytes, but touches none of it.
#[derive(Drop)]
pub struct Region {
    bytes: Vec<u8>,
    len: u64,
}

impl Model for Region {
    ghost Value = { List ℕ };

    ghost view = { λ r. zeros_after r.bytes.items r.len };

    ghost invariant = { λ r. (length r.bytes.items ≤ r.len) × (r.len ≤ vec_capacity r.bytes) };
}

impl Region {
    /// A region of so many bytes, each zero. It fails only if memory runs out.
    pub fn new(alloc: Global, len: u64) -> Result<Region, OutOfMemory>
        ensures zeros { IfOk result (λ region. region ≡ replicate len 0) }
    {
        let bytes = Vec::with_capacity(alloc, len as usize)?;
        Ok(Region { bytes, len })
    }

    /// How many bytes there are.
    pub fn len(&self) -> u64
        ensures { result ≡ length self.now }
    {
        self.len
    }

    /// The byte at a place.
    #[inline(always)]
    pub fn byte(&self, at: u64) -> u8
        requires { at < length self.now }
        ensures { Some result ≡ slice_get self.now at }
    {
        match self.bytes.get(at as usize) {
            Some(byte) => *byte,
            None => 0,
        }
    }

    /// The number of the `n` bytes from `at` on, 1 to 16, the first of them the lowest.
    #[inline(always)]
    pub fn get(&self, at: u64, n: u32) -> u128
        requires some { 1 ≤ n }
        requires at_most_16 { n ≤ 16 }
        requires inside { at + n ≤ length self.now }
        ensures number { result ≡ le_number (bytes_from self.now at n) }
        ensures below { result < 2 ^ (8 * n) }
    {
        let kept = self.bytes.as_slice();
        let start = at as usize;
        let end = start + n as usize;
        if end <= kept.len() {
            number_of(&kept[start..end])
        } else {
            number_past(kept, start)
        }
    }

    /// Writes a number into the `n` bytes from `at` on, 1 to 16, its lowest byte first. The number is below 2 to the power of 8 n.
    #[inline(always)]
    pub fn put(&mut self, at: u64, n: u32, v: u128)
        requires some { 1 ≤ n }
        requires at_most_16 { n ≤ 16 }
        requires fits { v < 2 ^ (8 * n) }
        requires inside { at + n ≤ length self.old }
        ensures bytes { self.new ≡ with_bytes_at self.old at (le_bytes n v) }
        ensures length { length self.new ≡ length self.old }
    {
        let start = at as usize;
        reach(&mut self.bytes, start + n as usize, self.len as usize);
        write_number(&mut self.bytes.as_mut_slice()[start..start + n as usize], v);
    }

    /// Writes the byte `b` into each of the `len` bytes from `at` on. Zeros that are written past the kept bytes aren't kept.
    pub fn fill(&mut self, at: u64, len: u64, b: u8)
        requires inside { at + len ≤ length self.old }
        ensures bytes { self.new ≡ with_bytes_at self.old at (replicate len b) }
        ensures length { length self.new ≡ length self.old }
    {
        let start = at as usize;
        if b == 0 && start >= self.bytes.len() {
            return;
        }
        reach(&mut self.bytes, start + len as usize, self.len as usize);
        self.bytes.as_mut_slice()[start..start + len as usize].fill(b);
    }

    /// Copies the `len` bytes from `from` on to `to`. The two runs may overlap: each byte is copied as it was before.
    pub fn copy(&mut self, from: u64, to: u64, len: u64)
        requires from_inside { from + len ≤ length self.old }
        requires to_inside { to + len ≤ length self.old }
        ensures bytes { self.new ≡ with_bytes_at self.old to (bytes_from self.old from len) }
        ensures length { length self.new ≡ length self.old }
    {
        let start = from as usize;
        let last = start.max(to as usize);
        reach(&mut self.bytes, last + len as usize, self.len as usize);
        self.bytes
            .as_mut_slice()
            .copy_within(start..start + len as usize, to as usize);
    }

    /// Copies the `len` bytes of another region from `from` on to `to`. Zeros that are copied past the kept bytes aren't kept.
    pub fn copy_from(&mut self, other: &Region, from: u64, to: u64, len: u64)
        requires from_inside { from + len ≤ length other.now }
        requires to_inside { to + len ≤ length self.old }
        ensures bytes { self.new ≡ with_bytes_at self.old to (bytes_from other.now from len) }
        ensures length { length self.new ≡ length self.old }
    {
        let run = other.kept_run(from, len);
        let zeros = len - run.len() as u64;
        let end = self.put_run(to, run);
        self.fill(end, zeros, 0);
    }

    /// Some of the bytes from `at` on, one after the other, without a copy: the first of them, and mostly all.
    pub fn run_from(&self, at: u64) -> &[u8]
        requires inside { at < length self.now }
        ensures bytes { bytes_from self.now at (length result.now) ≡ result.now }
        ensures some { 0 < length result.now }
        ensures end { at + length result.now ≤ length self.now }
    {
        let kept = self.bytes.as_slice();
        let start = at as usize;
        if start < kept.len() {
            &kept[start..]
        } else {
            zeros(self.len - at)
        }
    }

    /// The kept ones of the `len` bytes from `from` on. All bytes after them are zero.
    fn kept_run(&self, from: u64, len: u64) -> &[u8]
        requires inside { from + len ≤ length self.now }
        ensures bytes { bytes_from self.now from len ≡ result.now ++ replicate (len - length result.now) 0 }
        ensures count { length result.now ≤ len }
    {
        let kept = self.bytes.as_slice();
        let start = kept.len().min(from as usize);
        let end = kept.len().min(from as usize + len as usize);
        &kept[start..end]
    }

    /// Writes a run of bytes from `to` on. It returns the place after them.
    fn put_run(&mut self, to: u64, run: &[u8]) -> u64
        requires inside { to + length run.now ≤ length self.old }
        ensures bytes { self.new ≡ with_bytes_at self.old to run.now }
        ensures length { length self.new ≡ length self.old }
        ensures end { result ≡ to + length run.now }
    {
        if run.is_empty() {
            return to;
        }
        let len = self.len as usize;
        let start = to as usize;
        let end = start + run.len();
        reach(&mut self.bytes, end, len);
        self.bytes.as_mut_slice()[start..end].copy_from_slice(run);
        end as u64
    }
}

/// So many zeros, at most 64.
fn zeros(count: u64) -> &'static [u8]
    ensures { result.now ≡ replicate (min count 64) 0 }
{
    let zeros: &'static [u8] = &[0; 64];
    &zeros[..count.min(64) as usize]
}

/// From now on the bytes up to `end` are kept, in a region of `len` bytes. Those that weren't kept before are zero.
#[inline(always)]
fn reach(bytes: &mut Vec<u8>, end: usize, len: usize)
    requires inside { end ≤ len }
    requires room { len ≤ vec_capacity bytes.old }
    requires within { length bytes.old.items ≤ len }
    ensures region { zeros_after bytes.new.items len ≡ zeros_after bytes.old.items len }
    ensures reached { end ≤ length bytes.new.items }
    ensures within { length bytes.new.items ≤ len }
    ensures room { len ≤ vec_capacity bytes.new }
{
    if end > bytes.len() {
        grow(bytes, end, len);
    }
}

/// Keeps more of the zeros in a region of `len` bytes: up to the next multiple of `GROWTH` after `end`, at most all.
#[cold]
#[inline(never)]
fn grow(bytes: &mut Vec<u8>, end: usize, len: usize)
    requires more { length bytes.old.items < end }
    requires inside { end ≤ len }
    requires room { len ≤ vec_capacity bytes.old }
    ensures region { zeros_after bytes.new.items len ≡ zeros_after bytes.old.items len }
    ensures reached { end ≤ length bytes.new.items }
    ensures within { length bytes.new.items ≤ len }
    ensures room { len ≤ vec_capacity bytes.new }
{
    let multiple = end.saturating_add(GROWTH - end % GROWTH);
    bytes.resize(multiple.min(len), 0).unwrap();
}

/// The number of the kept bytes from a place on, fewer than 16, and of the zeros after them.
#[cold]
#[inline(never)]
fn number_past(bytes: &[u8], start: usize) -> u128
    requires { length bytes.now < start + 16 }
    ensures number { result ≡ le_number (drop start bytes.now) }
    ensures below { result < 2 ^ (8 * (length bytes.now - start)) }
{
    number_of(&bytes[start.min(bytes.len())..])
}

/// The number that at most 16 bytes spell, the first of them the lowest.
fn number_of(bytes: &[u8]) -> u128
    requires { length bytes.now ≤ 16 }
    ensures number { result ≡ le_number bytes.now }
    ensures below { result < 2 ^ (8 * length bytes.now) }
{
    let mut value = 0u128;
    let mut i = bytes.len();
    while i > 0 {
        i -= 1;
        value = value * 256 + bytes[i] as u128;
    }
    value
}

/// Writes a number's low bytes, the lowest first.
fn write_number(bytes: &mut [u8], v: u128)
    ensures { bytes.new ≡ le_bytes (length bytes.old) v }
{
    let mut rest = v;
    let mut i = 0;
    while i < bytes.len() {
        bytes[i] = (rest % 256) as u8;
        rest /= 256;
        i += 1;
    }
}
