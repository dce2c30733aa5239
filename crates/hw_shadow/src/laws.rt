ghost use Rattle.hw_base.specs.AddressMap.{rounded_size};
ghost use Rattle.hw_shadow.specs.declared.mismatch.Mismatch.{Mismatch};
ghost use Rattle.hw_shadow.specs.ObjectTags.{object_tags, tag_in};
ghost use Rattle.hw_shadow.specs.TagRule.{refusing_of, PassesTagRule, IsFirstMismatch};
ghost use Rattle.std.specs.Prelude.{◌≡◌, ℕ, ◌/◌, ◌<◌, ◌↔◌, Option, Some, None, length, slice_get};

/// Nothing refuses an access exactly if each granule that it touches is mapped and agrees.
pub fn each_touched_granule_agrees()
    ensures { (tag : ℕ → Option ℕ) (last : ℕ → ℕ) (number size : ℕ)
        → ((refusing_of tag last number size ≡ None) ↔ PassesTagRule tag last number size) }
{}

/// What refuses an access is found in a touched granule, and the touched granules before it agree.
pub fn the_first_refuses()
    ensures { (tag : ℕ → Option ℕ) (last : ℕ → ℕ) (number size : ℕ) (found : Mismatch)
        → refusing_of tag last number size ≡ Some found → (k : ℕ) × IsFirstMismatch tag last number size k found }
{}

/// An object's granules are as many as its rounded size has, and each has its tag.
pub fn objects_have_tags()
    ensures count { (size tag : ℕ) → length (object_tags size tag) ≡ rounded_size size / 16 }
    ensures each { (size tag k : ℕ) → k < rounded_size size / 16 → slice_get (object_tags size tag) k ≡ Some (tag_in size tag k) }
{}
