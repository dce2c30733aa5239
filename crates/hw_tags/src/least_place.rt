ghost use Rattle.hw_tags.specs.LeastPlace.{Span, least_fit, IsPlace, IsLeastPlace};
ghost use Rattle.std.specs.Prelude.{◌≡◌, ℕ, ◌≤◌, List, [], ◌∷◌, Some, None};

/// Laws of the place of a block of 16 bytes at least: where one is found it is the least, and where none is found there is
/// none. Examples on 64 bytes with a block of 16 bytes at their start and one behind the next 16 bytes: 16 bytes have their
/// place between them, and 32 bytes have none. The function does nothing when it runs.
pub fn blocks_have_the_least_place()
    ensures found { (spans : List Span) (size from end address : ℕ) → 16 ≤ size
        → least_fit spans size from end ≡ Some address → IsLeastPlace spans size from end address }
    ensures none { (spans : List Span) (size from end : ℕ) → 16 ≤ size
        → least_fit spans size from end ≡ None → (address : ℕ) → ¬ IsPlace spans size from end address }
    ensures in_the_hole { least_fit (record { at = 32; size = 16 } ∷ record { at = 0; size = 16 } ∷ []) 16 0 64 ≡ Some 16 }
    ensures no_hole { least_fit (record { at = 32; size = 16 } ∷ record { at = 0; size = 16 } ∷ []) 32 0 64 ≡ None }
    ensures large_heap { least_fit (record { at = 0; size = 16 } ∷ []) 32 0 268435456 ≡ Some 16 }
{}
