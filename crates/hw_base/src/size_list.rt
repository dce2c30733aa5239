ghost use Rattle.std.specs.Prelude.{◌≡◌, ℕ, List, [], ◌∷◌, ◌++◌, length, slice_get, ◌==◌, OnOk, OnErr};

use crate::OutOfMemory;
use std::alloc::Global;
use std::marker::Model;

/// A list of sizes in bytes. Contracts see it as a list of numbers. It keeps the allocator that it was made with.
#[derive(Drop)]
pub struct SizeList {
    items: Vec<u128>,
}

impl Model for SizeList {
    ghost Value = { List ℕ };

    ghost view = { λ l. l.items.items };
}

impl SizeList {
    /// The empty list. It takes no memory.
    pub fn new(alloc: Global) -> SizeList
        ensures { result ≡ [] }
    {
        SizeList {
            items: Vec::new(alloc),
        }
    }

    /// Adds a size in bytes at the end. After want of memory the list is as before.
    pub fn push(&mut self, item: u128) -> Result<(), OutOfMemory>
        ensures ok { OnOk result (self.new ≡ self.old ++ item ∷ []) }
        ensures err { OnErr result (self.new ≡ self.old) }
    {
        match self.items.push(item) {
            Ok(()) => Ok(()),
            Err(_) => Err(OutOfMemory),
        }
    }

    /// How many sizes there are.
    pub fn len(&self) -> u64
        ensures { result ≡ length self.now }
    {
        self.items.len() as u64
    }

    /// Whether there is no size.
    pub fn is_empty(&self) -> bool
        ensures { result ≡ (length self.now == 0) }
    {
        self.items.is_empty()
    }

    /// The size at a place, counted from 0, or none exactly where the place is past the end.
    pub fn get(&self, i: u64) -> Option<u128>
        ensures { result ≡ slice_get self.now i }
    {
        self.items.get(i as usize).copied()
    }
}
