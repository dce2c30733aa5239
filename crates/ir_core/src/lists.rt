ghost use Rattle.std.specs.Prelude.{◌≡◌, ℕ, List, [], ◌∷◌, ◌++◌, length, slice_get, ◌==◌, OnOk, OnErr};
ghost use Rattle.std.specs.Option.{option_copied};

use hw_base::OutOfMemory;
use std::alloc::Global;
use std::marker::Model;

/// A list of values that are copied out of it. Contracts see it as a list. It keeps the allocator that it was made
/// with.
#[derive(Drop)]
pub struct ValueList<T: Copy> {
    items: Vec<T>,
}

impl<T: Copy> Model for ValueList<T> {
    ghost Value = { List T };

    ghost view = { λ l. l.items.items };
}

impl<T: Copy> ValueList<T> {
    /// The empty list. It takes no memory.
    pub fn new(alloc: Global) -> Self
        ensures { result ≡ [] }
    {
        ValueList {
            items: Vec::new(alloc),
        }
    }

    /// The same values, in the memory that they have.
    pub fn from_vec(items: Vec<T>) -> Self
        ensures { result ≡ items.items }
    {
        ValueList { items }
    }

    /// Adds a value at the end. After want of memory the list is as before.
    pub fn push(&mut self, item: T) -> Result<(), OutOfMemory>
        ensures ok { OnOk result (self.new ≡ self.old ++ item ∷ []) }
        ensures err { OnErr result (self.new ≡ self.old) }
    {
        match self.items.push(item) {
            Ok(()) => Ok(()),
            Err(_) => Err(OutOfMemory),
        }
    }

    /// How many values there are.
    pub fn len(&self) -> u64
        ensures { result ≡ length self.now }
    {
        self.items.len() as u64
    }

    /// Whether there is no value.
    pub fn is_empty(&self) -> bool
        ensures { result ≡ (length self.now == 0) }
    {
        self.items.is_empty()
    }

    /// The value at an index, counted from 0, or none exactly where the index is past the end.
    pub fn get(&self, i: u64) -> Option<T>
        ensures { result ≡ slice_get self.now i }
    {
        self.items.get(i as usize).copied()
    }

    /// The values in order.
    pub fn as_slice(&self) -> &[T]
        ensures { result.now ≡ self.now }
    {
        self.items.as_slice()
    }
}

/// A list of items that it lends. Contracts see it as a list. It keeps the allocator that it was made with.
#[derive(Drop)]
pub struct OwnedList<T> {
    items: Vec<T>,
}

impl<T> Model for OwnedList<T> {
    ghost Value = { List T };

    ghost view = { λ l. l.items.items };
}

impl<T: Drop> OwnedList<T> {
    /// The empty list. It takes no memory.
    pub fn new(alloc: Global) -> Self
        ensures { result ≡ [] }
    {
        OwnedList {
            items: Vec::new(alloc),
        }
    }

    /// Adds an item at the end. After want of memory the list is as before, and the item is dropped.
    pub fn push(&mut self, item: T) -> Result<(), OutOfMemory>
        ensures ok { OnOk result (self.new ≡ self.old ++ item ∷ []) }
        ensures err { OnErr result (self.new ≡ self.old) }
    {
        match self.items.push(item) {
            Ok(()) => Ok(()),
            Err(_) => Err(OutOfMemory),
        }
    }

    /// How many items there are.
    pub fn len(&self) -> u64
        ensures { result ≡ length self.now }
    {
        self.items.len() as u64
    }

    /// Whether there is no item.
    pub fn is_empty(&self) -> bool
        ensures { result ≡ (length self.now == 0) }
    {
        self.items.is_empty()
    }

    /// The item at an index, counted from 0, or none exactly where the index is past the end.
    pub fn get(&self, i: u64) -> Option<&T>
        ensures { option_copied result ≡ slice_get self.now i }
    {
        self.items.get(i as usize)
    }

    /// The items in order.
    pub fn as_slice(&self) -> &[T]
        ensures { result.now ≡ self.now }
    {
        self.items.as_slice()
    }
}
