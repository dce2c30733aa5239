ghost use Rattle.hw_base.specs.Bytes.{le_bytes, le_number};
ghost use Rattle.hw_region.specs.RegionBytes.{bytes_from, with_bytes_at};
ghost use Rattle.std.specs.Prelude.{◌≡◌, ℕ, ◌+◌, ◌*◌, ◌^◌, ◌<◌, ◌≤◌, List, length, slice_get};

/// The bytes that were written are those that are read from the same place on, and so is a number.
pub fn what_is_written_is_read()
    ensures bytes { (bytes others : List ℕ) (at : ℕ) → at ≤ length bytes
        → bytes_from (with_bytes_at bytes at others) at (length others) ≡ others }
    ensures number { (bytes : List ℕ) (at n v : ℕ) → at ≤ length bytes → v < 2 ^ (8 * n)
        → le_number (bytes_from (with_bytes_at bytes at (le_bytes n v)) at n) ≡ v }
{}

/// The bytes before and after those that are written stay, and so does the length.
pub fn other_bytes_stay()
    ensures before { (bytes others : List ℕ) (at place count : ℕ) → at ≤ length bytes → place + count ≤ at
        → bytes_from (with_bytes_at bytes at others) place count ≡ bytes_from bytes place count }
    ensures after { (bytes others : List ℕ) (at place count : ℕ) → at ≤ length bytes → at + length others ≤ place
        → bytes_from (with_bytes_at bytes at others) place count ≡ bytes_from bytes place count }
    ensures count { (bytes others : List ℕ) (at : ℕ) → at + length others ≤ length bytes
        → length (with_bytes_at bytes at others) ≡ length bytes }
{}

/// Each place has the byte that was written there, if one was, and else the byte that was there before.
pub fn each_place_has_its_byte()
    ensures before { (bytes others : List ℕ) (at place : ℕ) → at ≤ length bytes → place < at
        → slice_get (with_bytes_at bytes at others) place ≡ slice_get bytes place }
    ensures written { (bytes others : List ℕ) (at i : ℕ) → at ≤ length bytes → i < length others
        → slice_get (with_bytes_at bytes at others) (at + i) ≡ slice_get others i }
    ensures after { (bytes others : List ℕ) (at place : ℕ) → at ≤ length bytes → at + length others ≤ place
        → slice_get (with_bytes_at bytes at others) place ≡ slice_get bytes place }
{}
