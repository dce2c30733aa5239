ghost use Rattle.std.specs.Prelude.{◌≡◌, ◌<◌, ◌≤◌, ℕ, List, [], ◌++◌, min, length, take, drop, IfOk, vec_len};

use hw_base::OutOfMemory;
use std::alloc::Global;
use std::marker::Model;

/// The bytes of an input over memory that are left.
#[derive(Drop)]
pub struct Rest {
    bytes: Vec<u8>,
    at: usize,
}

impl Model for Rest {
    ghost Value = { List ℕ };

    ghost view = { λ r. drop r.at r.bytes.items };

    ghost invariant = { λ r. r.at ≤ vec_len r.bytes };
}

impl Rest {
    pub fn new(alloc: Global, bytes: &[u8]) -> Result<Rest, OutOfMemory>
        ensures { IfOk result (λ rest. rest ≡ bytes.now) }
    {
        Ok(Rest {
            bytes: Vec::from_slice(alloc, bytes)?,
            at: 0,
        })
    }

    /// Moves the front to the front of `into`, at most `most` bytes, and returns how many.
    pub fn give(&mut self, into: &mut [u8], most: usize) -> usize
        ensures count { result ≡ min (length into.old) (min most (length self.old)) }
        ensures bytes { self.old ≡ take result into.new ++ self.new }
        ensures end { 0 < most → result ≡ 0 → 0 < length into.old → self.new ≡ [] }
        ensures after { self.new ≡ drop result self.old }
    {
        let count = copy_front(&self.bytes[self.at..], into, most);
        self.at += count;
        count
    }
}

// Copies the front of `from` to the front of `into`, at most `most` bytes, and returns how many.
fn copy_front(from: &[u8], into: &mut [u8], most: usize) -> usize
    ensures count { result ≡ min (length into.old) (min most (length from.now)) }
    ensures bytes { take result into.new ≡ take result from.now }
{
    let count = into.len().min(most.min(from.len()));
    into[..count].copy_from_slice(&from[..count]);
    count
}
