ghost use Rattle.hw_base.specs.Bytes.{byte_order};
ghost use Rattle.hw_shadow.specs.declared.mismatch.Mismatch.TheVariants.{Tags};
ghost use Rattle.tbi_memory.specs.declared.mem_fault.MemFault.TheVariants.{Unmapped};
ghost use Rattle.ir_lib.specs.Strings.{checked_string, string_at};
ghost use Rattle.ir_lib.specs.SmallStrings.{space_of_open_string, space_of_string};
ghost use Rattle.std.specs.declared.cmp.Ordering.TheVariants.{Less, Greater};
ghost use Rattle.std.specs.Prelude.{◌≡◌, ℕ, [], ◌∷◌, Ok, Err};

/// The first byte in which two runs of bytes differ decides their order.
pub fn bytes_compare_in_order()
    ensures less { byte_order (1 ∷ 2 ∷ 9 ∷ []) (1 ∷ 3 ∷ 0 ∷ []) ≡ Less }
    ensures greater { byte_order (255 ∷ []) (1 ∷ []) ≡ Greater }
{}

/// The string "hi" in 3 bytes with the tag 0x2a is read and passes its check. Without a 0 inside, in 2 bytes, it is read up to
/// a zero byte past the end, and the check refuses its third byte.
pub fn strings_by_example()
    ensures read { string_at space_of_string 3026418950129844224 ≡ Ok (104 ∷ 105 ∷ []) }
    ensures passes { checked_string space_of_string 3026418950129844224 ≡ Ok (104 ∷ 105 ∷ []) }
    ensures read_past { string_at space_of_open_string 3026418950129844224 ≡ Ok (104 ∷ 105 ∷ []) }
    ensures refused { checked_string space_of_open_string 3026418950129844224
        ≡ Err (record { at = 3026418950129844226; found = Tags 536870912 42 2 42 3 }) }
    ensures unmapped { string_at space_of_string 4096 ≡ Err (Unmapped 4096) }
{}
