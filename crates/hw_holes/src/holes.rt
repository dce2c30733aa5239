ghost use Rattle.std.specs.Prelude.{◌≡◌, ◌+◌, ◌%◌, ◌<◌, ◌≤◌, [], ◌∷◌, IfNone, IfOk, IsOk, OnOk};
ghost use Rattle.hw_holes.specs.FreeRanges.{place_for, taken, given, AreApart, IsNotFree};

use crate::FreeRange;
use crate::ranges::{first_fit, first_reaching, put_joined};
use hw_base::OutOfMemory;
use std::alloc::Global;
use std::marker::Model;

/// The free ranges of a heap, sorted. Contracts see them, how many more there is room for, and the bounds of the heap.
#[derive(Drop)]
pub struct Holes {
    ranges: Vec<FreeRange>,
    low: u64,
    high: u64,
}

impl Model for Holes {
    ghost use Rattle.std.specs.Prelude.{◌-◌};
    ghost use Rattle.std.specs.Vec.{vec_len, vec_capacity};
    ghost use Rattle.hw_holes.specs.FreeRanges.{AreApart, HolesState};

    ghost Value = { HolesState };

    ghost view = { λ h. record { ranges = h.ranges.items; spare = vec_capacity h.ranges - vec_len h.ranges; low = h.low; high = h.high } };

    ghost invariant = { λ h. AreApart h.low h.high h.ranges.items };
}

impl Holes {
    /// A heap from `low` up to `high` that is free, whole.
    pub fn new(alloc: Global, low: u64, high: u64) -> Result<Holes, OutOfMemory>
        requires low_in_steps { low % 16 ≡ 0 }
        requires high_in_steps { high % 16 ≡ 0 }
        requires not_empty { low < high }
        ensures ranges { IfOk result (λ h. h.ranges ≡ record { from = low; to = high } ∷ []) }
        ensures low { IfOk result (λ h. h.low ≡ low) }
        ensures high { IfOk result (λ h. h.high ≡ high) }
    {
        let mut ranges = Vec::new(alloc);
        ranges.push(FreeRange {
            from: low,
            to: high,
        })?;
        Ok(Holes { ranges, low, high })
    }

    /// Makes room for one more range. The ranges stay, whether there is memory or not.
    pub fn reserve(&mut self) -> Result<(), OutOfMemory>
        ensures room { OnOk result (1 ≤ self.new.spare) }
        ensures enough { 1 ≤ self.old.spare → IsOk result }
        ensures spare { self.old.spare ≤ self.new.spare }
        ensures ranges { self.new.ranges ≡ self.old.ranges }
        ensures low { self.new.low ≡ self.old.low }
        ensures high { self.new.high ≡ self.old.high }
    {
        self.ranges.try_reserve(1)?;
        Ok(())
    }

    /// Takes the lowest place that is free for `size` bytes, a multiple of 16. With no such place nothing changes.
    pub fn take(&mut self, size: u64) -> Option<u64>
        requires in_steps { size % 16 ≡ 0 }
        requires not_empty { 0 < size }
        ensures place { result ≡ place_for size self.old.ranges }
        ensures ranges { self.new.ranges ≡ taken size self.old.ranges }
        ensures unchanged { IfNone result (self.new ≡ self.old) }
        ensures spare { self.old.spare ≤ self.new.spare }
        ensures low { self.new.low ≡ self.old.low }
        ensures high { self.new.high ≡ self.old.high }
    {
        let place = first_fit(&self.ranges, size);
        if place == self.ranges.len() {
            return None;
        }
        let range = self.ranges[place];
        let rest = range.from + size;
        if rest == range.to {
            self.ranges.remove(place);
        } else {
            self.ranges[place] = FreeRange {
                from: rest,
                to: range.to,
            };
        }
        Some(range.from)
    }

    /// Frees `size` bytes from `at` on, which are not free yet. They are joined with the free ranges that they touch.
    pub fn give(&mut self, at: u64, size: u64)
        requires at_in_steps { at % 16 ≡ 0 }
        requires size_in_steps { size % 16 ≡ 0 }
        requires not_empty { 0 < size }
        requires above_low { self.old.low ≤ at }
        requires below_high { at + size ≤ self.old.high }
        requires not_free { IsNotFree at size self.old.ranges }
        requires room { 1 ≤ self.old.spare }
        ensures ranges { self.new.ranges ≡ given at size self.old.ranges }
        ensures spare { self.old.spare ≤ self.new.spare + 1 }
        ensures low { self.new.low ≡ self.old.low }
        ensures high { self.new.high ≡ self.old.high }
    {
        let place = first_reaching(&self.ranges, at);
        // The sum is at most `high`, so it doesn't wrap.
        let _high = self.high;
        let to = at + size;
        if place < self.ranges.len() && self.ranges[place].to == at {
            let before = self.ranges.remove(place);
            put_joined(&mut self.ranges, place, before.from, to);
        } else {
            put_joined(&mut self.ranges, place, at, to);
        }
    }

    /// The ranges are sorted, apart and within the heap.
    pub fn are_apart(&self)
        ensures { AreApart self.now.low self.now.high self.now.ranges }
    {
        let _ranges = &self.ranges;
    }
}
