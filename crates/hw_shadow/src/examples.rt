ghost use Rattle.hw_shadow.specs.declared.mismatch.Mismatch.{Mismatch};
ghost use Rattle.hw_shadow.specs.ObjectTags.{object_tags};
ghost use Rattle.hw_shadow.specs.TagRule.{tags_agree, refusing_of};
ghost use Rattle.std.specs.Prelude.{◌≡◌, ℕ, ◌==◌, true, false, if◌then◌else◌, Option, Some, None, [], ◌∷◌};

/// The tags of the granules of 17 bytes, of an empty object, and of 32 bytes, with the tag 0x2a.
pub fn tags_of_objects()
    ensures seventeen_bytes { object_tags 17 42 ≡ 42 ∷ 1 ∷ [] }
    ensures no_bytes { object_tags 0 42 ≡ 0 ∷ [] }
    ensures whole_granules { object_tags 32 42 ≡ 42 ∷ 42 ∷ [] }
{}

/// The tag rule, with the pointer's tag 0x2a. In a short granule of 10 bytes an access that ends at its byte 9
/// agrees, and one that ends at its byte 10 doesn't; with another last byte none does. A pointer tag of 10 agrees with that
/// granule wherever the access ends, so a byte past the object's end isn't detected. An access of 4 bytes from byte 14 of an
/// object of 17 bytes on is refused in its second granule.
pub fn short_granules_agree()
    ensures within { tags_agree 42 10 10 42 ≡ true }
    ensures past_the_end { tags_agree 42 10 11 42 ≡ false }
    ensures another_last_byte { tags_agree 42 10 10 43 ≡ false }
    ensures by_chance { tags_agree 10 10 16 42 ≡ true }
    ensures equal { tags_agree 42 42 16 0 ≡ true }
    ensures second_granule { refusing_of (λ g. if g == 0 then Some 42 else (if g == 1 then Some 1 else None)) (λ _g. 42) 3026418949592973326 4
        ≡ Some (Mismatch.Tags 16 42 1 42 2) }
    ensures first_unmapped { refusing_of (λ g. if g == 0 then Some 42 else None) (λ _g. 42) 3026418949592973326 1000000000000000000
        ≡ Some (Mismatch.Unmapped 16) }
{}
