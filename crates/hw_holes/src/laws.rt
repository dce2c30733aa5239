ghost use Rattle.hw_holes.specs.FreeRanges.{AreApart, IsFree, IsNotFree, place_for, taken, given, free_bytes};
ghost use Rattle.hw_holes.specs.declared.ranges.FreeRange.{FreeRange};
ghost use Rattle.std.specs.Prelude.{◌≡◌, ℕ, ◌+◌, ◌<◌, ◌≤◌, ◌⊎◌, List, None, Some};

/// The place that is found is free, and the lowest that is; where none is found there is none.
pub fn the_lowest_place_is_found()
    ensures free { (size at : ℕ) (ranges : List FreeRange) → place_for size ranges ≡ Some at → IsFree at size ranges }
    ensures lowest { (size at other low high : ℕ) (ranges : List FreeRange) → AreApart low high ranges
        → place_for size ranges ≡ Some at → IsFree other size ranges → at ≤ other }
    ensures none { (size other : ℕ) (ranges : List FreeRange) → place_for size ranges ≡ None → ¬ IsFree other size ranges }
{}

/// What was taken is free no more, and what wasn't free before isn't either. So many bytes less are free.
pub fn what_is_taken_is_not_free()
    ensures taken { (size at low high : ℕ) (ranges : List FreeRange) → AreApart low high ranges
        → place_for size ranges ≡ Some at → (low ≤ at) × IsNotFree at size (taken size ranges) }
    ensures others { (size at other : ℕ) (ranges : List FreeRange) → IsNotFree at other ranges
        → IsNotFree at other (taken size ranges) }
    ensures bytes { (size at low high : ℕ) (ranges : List FreeRange) → AreApart low high ranges
        → place_for size ranges ≡ Some at → free_bytes (taken size ranges) + size ≡ free_bytes ranges }
{}

/// Bytes that are given back are free. What is apart from them and wasn't free before isn't free afterwards. So many bytes more
/// are free.
pub fn what_is_given_is_free_alone()
    ensures others { (at size address other : ℕ) (ranges : List FreeRange) → 0 < other → IsNotFree address other ranges
        → (address + other ≤ at) ⊎ (at + size ≤ address) → IsNotFree address other (given at size ranges) }
    ensures given { (at size low high : ℕ) (ranges : List FreeRange) → AreApart low high ranges
        → IsFree at size (given at size ranges) }
    ensures bytes { (at size low high : ℕ) (ranges : List FreeRange) → AreApart low high ranges
        → free_bytes (given at size ranges) ≡ free_bytes ranges + size }
{}
