ghost use Rattle.std.specs.Prelude.{◌≡◌, ℕ, List, [], ◌∷◌, ◌++◌, length, slice_get, ◌==◌, OnOk, OnErr};

use crate::OutOfMemory;
use std::alloc::Global;
use std::marker::Model;

/// A list of bytes. Contracts see it as a list of numbers. It keeps the allocator that it was made with.
#[derive(Drop)]
pub struct ByteList {
    items: Vec<u8>,
}

impl Model for ByteList {
    ghost Value = { List ℕ };

    ghost view = { λ l. l.items.items };
}

impl ByteList {
    /// The empty list. It takes no memory.
    pub fn new(alloc: Global) -> ByteList
        ensures { result ≡ [] }
    {
        ByteList {
            items: Vec::new(alloc),
        }
    }

    /// The same bytes, in the memory that they have.
    pub fn from_vec(items: Vec<u8>) -> ByteList
        ensures { result ≡ items.items }
    {
        ByteList { items }
    }

    /// Adds a byte at the end. After want of memory the list is as before.
    pub fn push(&mut self, item: u8) -> Result<(), OutOfMemory>
        ensures ok { OnOk result (self.new ≡ self.old ++ item ∷ []) }
        ensures err { OnErr result (self.new ≡ self.old) }
    {
        match self.items.push(item) {
            Ok(()) => Ok(()),
            Err(_) => Err(OutOfMemory),
        }
    }

    /// How many bytes there are.
    pub fn len(&self) -> u64
        ensures { result ≡ length self.now }
    {
        self.items.len() as u64
    }

    /// Whether there is no byte.
    pub fn is_empty(&self) -> bool
        ensures { result ≡ (length self.now == 0) }
    {
        self.items.is_empty()
    }

    /// The byte at a place, counted from 0, or none exactly where the place is past the end.
    pub fn get(&self, i: u64) -> Option<u8>
        ensures { result ≡ slice_get self.now i }
    {
        self.items.get(i as usize).copied()
    }

    /// The bytes in order.
    pub fn as_slice(&self) -> &[u8]
        ensures { result.now ≡ self.now }
    {
        self.items.as_slice()
    }
}
