ghost use Rattle.tbi_memory.specs.AddressSpace.{tag_at, check, read};
ghost use Rattle.tbi_memory.specs.MappedBytes.{byte_at};
ghost use Rattle.tbi_memory.specs.SmallSpace.{small_map};
ghost use Rattle.hw_shadow.specs.declared.mismatch.Mismatch.TheVariants.{Tags};
ghost use Rattle.global_tags.specs.GlobalPlaces.{layout_of, descriptors_of, global_number};
ghost use Rattle.global_tags.specs.SmallGlobals.{small_layouts, small_globals, loaded_small};
ghost use Rattle.std.specs.Prelude.{◌≡◌, ℕ, Some, Ok, [], ◌∷◌, true, false};

/// A constant of the two bytes "hi" and a variable that points to its second byte, for the word 3: the constant is at
/// the first address of globals with the tag 0x13, the variable on the next page with the tag 0x14. A read of the
/// constant's third byte is refused.
pub fn globals_by_example()
    ensures layout { layout_of small_map small_layouts small_globals ≡ record { constants = 16; variables_at = 69632; variables = 16; heap = 64 } }
    ensures descriptors { descriptors_of small_map small_layouts small_globals 3
        ≡ record { at = 65536; size = 2; tag = 19; constant = true }
        ∷ record { at = 69632; size = 8; tag = 20; constant = false } ∷ [] }
    ensures text { read loaded_small 65536 2 ≡ Ok (104 ∷ 105 ∷ []) }
    ensures last_byte { byte_at loaded_small.bytes 65551 ≡ Some 19 }
    ensures text_tag { tag_at loaded_small 65536 ≡ Some 2 }
    ensures pointer { read loaded_small 69632 8 ≡ Ok (1 ∷ 0 ∷ 1 ∷ 0 ∷ 0 ∷ 0 ∷ 0 ∷ 19 ∷ []) }
    ensures number { global_number (descriptors_of small_map small_layouts small_globals 3) 0 1 ≡ 1369094286720696321 }
    ensures past_the_end { check loaded_small 1369094286720696322 1 ≡ Some (Tags 65536 19 2 19 3) }
{}
