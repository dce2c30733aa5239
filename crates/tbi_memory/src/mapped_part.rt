ghost use Rattle.hw_base.specs.AddressMap.{granule_of};
ghost use Rattle.tbi_memory.specs.MappedBytes.{byte_in, set_in};
ghost use Rattle.tbi_memory.specs.MemoryParts.{bytes_of, tags_of, all_tagged, lie_in, past_range};
ghost use Rattle.std.specs.Prelude.{◌≡◌, ℕ, ◌+◌, ◌/◌, ◌^◌, ◌<◌, ◌≤◌, length, replicate, IfOk};

use hw_base::OutOfMemory;
use hw_region::Region;
use hw_shadow::Shadow;
use std::alloc::Global;

/// One mapped part of memory: its first address, its bytes, and the tags of its granules. Addresses have no tag.
#[derive(Drop)]
pub struct MappedPart {
    pub at: u64,
    pub bytes: Region,
    pub tags: Shadow,
}

impl MappedPart {
    /// So many zero bytes from an address on, a multiple of 16, with the tag 0. It fails only if memory runs out.
    pub fn new(alloc: Global, at: u64, len: u64) -> Result<MappedPart, OutOfMemory>
        ensures zeros { IfOk result (λ part. part ≡ record { at = at; bytes = replicate len 0; tags = replicate (granule_of len) 0 }) }
    {
        let bytes = Region::new(alloc, len)?;
        let tags = Shadow::new(alloc, len / 16)?;
        Ok(MappedPart { at, bytes, tags })
    }

    /// Whether `n` bytes from `a` on lie in the part.
    #[inline(always)]
    pub fn holds(&self, a: u64, n: u64) -> bool
        requires small { a + n < 2 ^ 64 }
        ensures { result ≡ lie_in (bytes_of self.now) a n }
    {
        self.at <= a && a - self.at + n <= self.bytes.len()
    }

    /// Whether `count` granules from `first` on lie in the part.
    #[inline(always)]
    pub fn holds_granules(&self, first: u64, count: u64) -> bool
        requires small { first + count < 2 ^ 64 }
        ensures { result ≡ lie_in (tags_of self.now) first count }
    {
        self.at / 16 <= first && first - self.at / 16 + count <= self.tags.len()
    }

    /// Whether `count` granules from `first` on lie in the part, and each has this tag.
    pub fn all_tagged(&self, first: u64, count: u64, tag: u8) -> bool
        requires small { first + count < 2 ^ 64 }
        ensures { result ≡ all_tagged (tags_of self.now) first count tag }
    {
        if self.holds_granules(first, count) {
            self.tags.all_equal(first - self.at / 16, count, tag)
        } else {
            false
        }
    }

    /// The byte at an address, or `None` outside the part.
    #[inline(always)]
    pub fn byte(&self, a: u64) -> Option<u8>
        ensures { result ≡ byte_in (bytes_of self.now) a }
    {
        if self.at <= a && a - self.at < self.bytes.len() {
            Some(self.bytes.byte(a - self.at))
        } else {
            None
        }
    }

    /// The tag of a granule, or `None` outside the part.
    #[inline(always)]
    pub fn tag(&self, granule: u64) -> Option<u8>
        ensures { result ≡ byte_in (tags_of self.now) granule }
    {
        let first = self.at / 16;
        if first <= granule && granule - first < self.tags.len() {
            Some(self.tags.tag_at(granule - first))
        } else {
            None
        }
    }

    /// Writes the byte at an address; outside the part nothing changes.
    pub fn set_byte(&mut self, a: u64, byte: u8)
        ensures bytes { bytes_of self.new ≡ set_in (bytes_of self.old) a byte }
        ensures at { self.new.at ≡ self.old.at }
        ensures tags { self.new.tags ≡ self.old.tags }
        ensures length { length self.new.bytes ≡ length self.old.bytes }
    {
        if self.at <= a && a - self.at < self.bytes.len() {
            self.bytes.fill(a - self.at, 1, byte);
        }
    }

    /// Sets the tag of a granule; outside the part nothing changes.
    pub fn set_tag(&mut self, granule: u64, tag: u8)
        ensures tags { tags_of self.new ≡ set_in (tags_of self.old) granule tag }
        ensures at { self.new.at ≡ self.old.at }
        ensures bytes { self.new.bytes ≡ self.old.bytes }
        ensures length { length self.new.tags ≡ length self.old.tags }
    {
        let first = self.at / 16;
        if first <= granule && granule - first < self.tags.len() {
            self.tags.plain(granule - first, 1, tag);
        }
    }

    /// The address after the part's last one, or `a` itself if it isn't in the part.
    pub fn past(&self, a: u64) -> u64
        requires end { self.now.at + length self.now.bytes < 2 ^ 64 }
        requires small { a + 1 < 2 ^ 64 }
        ensures { result ≡ past_range (bytes_of self.now) a }
    {
        if self.holds(a, 1) {
            self.at + self.bytes.len()
        } else {
            a
        }
    }
}
