ghost use Rattle.hw_base.specs.TaggedAddress.{tagged_address};
ghost use Rattle.hw_shadow.specs.declared.mismatch.Mismatch.{Mismatch};
ghost use Rattle.hw_shadow.specs.declared.mismatch.Mismatch.TheVariants.{Tags};
ghost use Rattle.tbi_memory.specs.declared.mem_fault.MemFault.{MemFault};
ghost use Rattle.tbi_memory.specs.declared.mem_fault.MemFault.TheVariants.{Unmapped, ReadOnly};
ghost use Rattle.tbi_memory.specs.AddressSpace.{tag_at, check, read, written, filled};
ghost use Rattle.tbi_memory.specs.MappedBytes.{byte_at};
ghost use Rattle.tbi_memory.specs.SmallSpace.{small_space, space_of_seventeen};
ghost use Rattle.std.specs.Prelude.{◌≡◌, ℕ, Some, None, Ok, Err, List, [], ◌∷◌};

/// A small space at its start: the first byte of a constant, the last of the second task's stack, the byte after it, the
/// heap's last byte, and the tag of the variable.
pub fn a_small_space()
    ensures constant { byte_at small_space.bytes 65536 ≡ Some 0 }
    ensures last_of_a_stack { byte_at small_space.bytes 268435583 ≡ Some 0 }
    ensures after_the_stacks { byte_at small_space.bytes 268435584 ≡ None }
    ensures last_of_the_heap { byte_at small_space.bytes 536870975 ≡ Some 0 }
    ensures tag_of_the_variable { tag_at small_space 69647 ≡ Some 0 }
    ensures tag_of_nothing { tag_at small_space 65552 ≡ None }
{}

/// An object of 17 bytes with the tag 0x2a at the heap's start: its granules' tags, its first and 17th byte, and the last
/// byte of its short granule. Its 17th byte may be read and its 18th may not.
pub fn objects_in_memory()
    ensures first_tag { tag_at space_of_seventeen 536870912 ≡ Some 42 }
    ensures second_tag { tag_at space_of_seventeen 536870928 ≡ Some 1 }
    ensures third_tag { tag_at space_of_seventeen 536870944 ≡ Some 0 }
    ensures bytes { read space_of_seventeen 536870927 3 ≡ Ok (0 ∷ 0 ∷ 0 ∷ []) }
    ensures last_byte { byte_at space_of_seventeen.bytes 536870943 ≡ Some 42 }
    ensures within { check space_of_seventeen (tagged_address 42 536870912) 17 ≡ None }
    ensures past_the_end { check space_of_seventeen (tagged_address 42 536870912) 18 ≡ Some (Tags 536870928 42 1 42 2) }
{}

/// What memory refuses: a write to a constant, and the first unmapped address of a read, a write and a fill. An unmapped
/// byte counts before a constant.
pub fn refused_accesses()
    ensures constant { written small_space 65551 (1 ∷ []) ≡ Err ReadOnly }
    ensures nothing { written small_space 65551 [] ≡ Ok small_space }
    ensures unmapped_after_a_constant { written small_space 65551 (1 ∷ 2 ∷ []) ≡ Err (Unmapped 65552) }
    ensures read_past { read small_space 536870975 2 ≡ Err (Unmapped 536870976) }
    ensures filled_past { filled small_space 536870912 65 7 ≡ Err (Unmapped 536870976) }
{}
