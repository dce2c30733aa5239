ghost use Rattle.hw_base.specs.AddressMap.{rounded_size};
ghost use Rattle.hw_region.specs.RegionBytes.{bytes_from, with_bytes_at};
ghost use Rattle.hw_shadow.specs.ObjectTags.{object_tags};
ghost use Rattle.std.specs.List.{list_all};
ghost use Rattle.std.specs.Prelude.{◌≡◌, ℕ, ◌+◌, ◌/◌, ◌<◌, ◌≤◌, ◌==◌, List, length, replicate, slice_get, IfOk, Some};

use hw_base::OutOfMemory;
use hw_region::Region;
use std::alloc::Global;
use std::marker::Model;

/// The tags of the granules of one range of the simulated memory. Contracts see it as the list of the tags. Granules are
/// counted from 0 in the range. How many there are never changes, and only `new` takes memory.
#[derive(Drop)]
pub struct Shadow {
    tags: Region,
}

impl Model for Shadow {
    ghost use Rattle.std.specs.Prelude.{List, ℕ, length, ◌<◌, ◌^◌};

    ghost Value = { List ℕ };

    ghost view = { λ s. s.tags };

    ghost invariant = { λ s. length s.tags < 2 ^ 64 };
}

impl Shadow {
    /// The tags of so many granules, each 0. It fails only if memory runs out.
    pub fn new(alloc: Global, granules: u64) -> Result<Shadow, OutOfMemory>
        ensures zeros { IfOk result (λ shadow. shadow ≡ replicate granules 0) }
    {
        let tags = Region::new(alloc, granules)?;
        Ok(Shadow { tags })
    }

    /// How many granules there are.
    pub fn len(&self) -> u64
        ensures { result ≡ length self.now }
    {
        self.tags.len()
    }

    /// Sets the tags of an object of `size` bytes that begins at the granule `first`, its short granule included.
    pub fn paint(&mut self, first: u64, size: u64, tag: u8)
        requires inside { first + rounded_size size / 16 ≤ length self.old }
        ensures tags { self.new ≡ with_bytes_at self.old first (object_tags size tag) }
        ensures length { length self.new ≡ length self.old }
    {
        let whole = size / 16;
        self.tags.fill(first, whole, tag);
        if size % 16 != 0 || size == 0 {
            self.tags.fill(first + whole, 1, (size % 16) as u8);
        }
    }

    /// Sets one tag in `count` granules from `first` on.
    pub fn plain(&mut self, first: u64, count: u64, tag: u8)
        requires inside { first + count ≤ length self.old }
        ensures tags { self.new ≡ with_bytes_at self.old first (replicate count tag) }
        ensures length { length self.new ≡ length self.old }
    {
        self.tags.fill(first, count, tag);
    }

    /// The tag of a granule.
    #[inline(always)]
    pub fn tag_at(&self, granule: u64) -> u8
        requires inside { granule < length self.now }
        ensures { Some result ≡ slice_get self.now granule }
    {
        self.tags.byte(granule)
    }

    /// Whether each of `count` granules from `first` on has this tag.
    pub fn all_equal(&self, first: u64, count: u64, tag: u8) -> bool
        requires inside { first + count ≤ length self.now }
        ensures { result ≡ list_all (λ t. t == tag) (bytes_from self.now first count) }
    {
        let mut i = 0;
        while i < count {
            if self.tags.byte(first + i) != tag {
                return false;
            }
            i += 1;
        }
        true
    }
}
