ghost use Rattle.free_ring.specs.Kept.{Kept, after_pushes};
ghost use Rattle.std.specs.Prelude.{◌≡◌, ◌≤◌, List, ◌++◌, length, reverse, take};

/// After records were pushed one after the other, the last of them are kept, the newest first, and then those of before, at
/// most as many as may be kept.
pub fn the_last_records_are_kept<R: Copy>()
    ensures kept { (ring : Kept R) (pushed : List R) → length ring.kept ≤ ring.size
        → (after_pushes ring pushed).kept ≡ take ring.size (reverse pushed ++ ring.kept) }
    ensures size { (ring : Kept R) (pushed : List R) → (after_pushes ring pushed).size ≡ ring.size }
{}
