ghost use Rattle.std.specs.Prelude.{◌≡◌, ◌+◌, ◌-◌, ◌*◌, ◌^◌, [], ◌∷◌, Some, None};
ghost use Rattle.ir_core.specs.declared.operations.Op.TheVariants.{Load};
ghost use Rattle.ir_core.specs.Examples.{
  bytes_behind,
  call_free,
  call_malloc,
  defines,
  i64_type,
  i8_type,
  load_byte,
  ptr_register,
  ptr_type,
  return_zero,
};
ghost use Rattle.ir_core.specs.FurtherExamples.{
  frees_a_global,
  frees_an_inner_pointer,
  frees_twice,
  goes_far_past_a_block,
  grows_a_block,
  only_main,
  prints_an_open_string,
  reads_an_empty_block,
};
ghost use Rattle.hw_base.specs.declared.endings.Space.TheVariants.{Heap as HeapSpace, Stack as StackSpace};
ghost use Rattle.tag_story.specs.ShownStory.{shown_full, shown_judgement};
ghost use Rattle.tag_story.specs.StoryPrograms.{
  has_a_large_variable,
  makes_a_large_table,
  makes_three_blocks,
  reads_a_returned_variable,
  reads_after_a_block_in_a_hole,
  writes_to_three_blocks,
};
ghost use Rattle.tag_story.specs.declared.judgement.Coincidence.TheVariants.{BlockTag, Granules, NullNumber};
ghost use Rattle.tag_story.specs.declared.judgement.Judgement.TheVariants.{Passes, Refused};
ghost use Rattle.tag_story.specs.declared.judgement.Refusing.TheVariants.{Block, Granule, Unmapped};

/// Reads and what the tag rule says of them, shown by evaluation: a read of a block of no bytes is refused by the memory tag
/// 0, a read through a pointer that went 2 ^ 56 bytes further by its other tag, the first byte past a string by the short
/// granule, and a read of a block after `realloc` by its free tag. A read past the last byte of the heap is refused because
/// nothing is mapped there. A read of 8 bytes of a freed block of 20 bytes passes if a new block of 20 bytes there has the same tag:
/// its first granule has that tag, and its second one is short and ends in it. A read of a variable of a function that returned is
/// refused by the tag 0 of a stack that no frame takes. A read of the byte after a block of a byte, at the place of a freed one, is
/// refused by its short granule. The function does nothing when it runs.
pub fn judged_reads()
    ensures no_bytes { shown_judgement reads_an_empty_block 64 (41 ∷ []) (0 ∷ [])
        ≡ Some (record {
          number = 42 * 2 ^ 56 + 536870912;
          judgement = Refused (Granule 536870912 42 0 None 1);
        }) }
    ensures another_tag { shown_judgement goes_far_past_a_block 64 (41 ∷ []) (0 ∷ [])
        ≡ Some (record {
          number = 43 * 2 ^ 56 + 536870912;
          judgement = Refused (Granule 536870912 43 42 None 1);
        }) }
    ensures open_string { shown_judgement prints_an_open_string 64 (3 ∷ []) (0 ∷ [])
        ≡ Some (record {
          number = 19 * 2 ^ 56 + 65538;
          judgement = Refused (Granule 65536 19 2 (Some 19) 3);
        }) }
    ensures grown { shown_judgement grows_a_block 64 (41 ∷ 9 ∷ 0 ∷ []) (0 ∷ [])
        ≡ Some (record {
          number = 42 * 2 ^ 56 + 536870912;
          judgement = Refused (Granule 536870912 42 16 None 1);
        }) }
    ensures past_the_heap { shown_judgement
        (only_main (ptr_type ∷ ptr_type ∷ i8_type ∷ []) 4 (call_malloc 0 16 ∷ bytes_behind 1 0 16 ∷ load_byte 2 1 ∷ return_zero ∷ []))
        16 (41 ∷ []) (0 ∷ [])
        ≡ Some (record {
          number = 42 * 2 ^ 56 + 536870928;
          judgement = Refused (Unmapped 536870928);
        }) }
    ensures equal_tag_and_short_granule { shown_judgement
        (only_main (ptr_type ∷ ptr_type ∷ ptr_type ∷ i64_type ∷ []) 6
        (call_malloc 0 20
        ∷ call_free 0
        ∷ call_malloc 1 20
        ∷ bytes_behind 2 0 12
        ∷ defines 3 (Load i64_type (ptr_register 2) 4)
        ∷ return_zero
        ∷ []))
        64 (41 ∷ []) (0 ∷ [])
        ≡ Some (record {
          number = 42 * 2 ^ 56 + 536870924;
          judgement = Passes (Granules (Some (536870912, 536870912)) (Some (record { granule = 536870928; memory = 4; end = 4; last = 42 })));
        }) }
    ensures returned { shown_judgement reads_a_returned_variable 64 (9 ∷ []) (0 ∷ [])
        ≡ Some (record {
          number = 10 * 2 ^ 56 + 268697584;
          judgement = Refused (Granule 268697584 10 0 None 1);
        }) }
    ensures in_a_hole { shown_judgement reads_after_a_block_in_a_hole 32 (41 ∷ []) (0 ∷ [])
        ≡ Some (record {
          number = 42 * 2 ^ 56 + 536870913;
          judgement = Refused (Granule 536870912 42 1 (Some 42) 2);
        }) }
{}

/// A write of 48 bytes to three blocks of 16 bytes, of which the first and the last have the pointer's tag, is refused by the
/// granule in the middle, which has the tag 1. The function does nothing when it runs.
pub fn judged_writes()
    ensures in_the_middle { shown_judgement writes_to_three_blocks 64 (41 ∷ 0 ∷ 41 ∷ []) (0 ∷ [])
        ≡ Some (record {
          number = 42 * 2 ^ 56 + 536870912;
          judgement = Refused (Granule 536870928 42 1 (Some 0) 16);
        }) }
{}

/// Stories that are full, shown by evaluation: the third block in a heap of 32 bytes, in its step, with what was asked for and
/// what the living blocks take; a table whose size is a product above 2^64, which is asked for as it is; and a variable that is
/// larger than a stack, at the start. The function does nothing when it runs.
pub fn full_stories()
    ensures third_block { shown_full makes_three_blocks 32 (41 ∷ []) (0 ∷ [])
        ≡ Some (record { full = record { space = HeapSpace; asked = 1; living = 32 }; step = 3 }) }
    ensures large_table { shown_full makes_a_large_table 32 (41 ∷ []) (0 ∷ [])
        ≡ Some (record { full = record { space = HeapSpace; asked = 2 ^ 80; living = 0 }; step = 1 }) }
    ensures large_variable { shown_full has_a_large_variable 32 (41 ∷ []) (0 ∷ [])
        ≡ Some (record { full = record { space = StackSpace; asked = 262160; living = 0 }; step = 0 }) }
{}

/// Frees and what the tag rule says of them, shown by evaluation: the second free of a block, and the frees of an inner
/// pointer and of a global, are refused because no block begins there. If a new block begins at the place of the freed
/// one, the second free is refused by another tag, and passes if both blocks have one tag. A pointer that went round to the
/// number 0 is freed as null. The function does nothing when it runs.
pub fn judged_frees()
    ensures twice { shown_judgement frees_twice 64 (41 ∷ 0 ∷ []) (0 ∷ [])
        ≡ Some (record { number = 42 * 2 ^ 56 + 536870912; judgement = Refused (Block None) }) }
    ensures inner { shown_judgement frees_an_inner_pointer 64 (41 ∷ []) (0 ∷ [])
        ≡ Some (record { number = 42 * 2 ^ 56 + 536870913; judgement = Refused (Block None) }) }
    ensures global { shown_judgement frees_a_global 64 (41 ∷ []) (0 ∷ [])
        ≡ Some (record { number = 57 * 2 ^ 56 + 65536; judgement = Refused (Block None) }) }
    ensures another_block { shown_judgement
        (only_main (ptr_type ∷ ptr_type ∷ []) 5 (call_malloc 0 16 ∷ call_free 0 ∷ call_malloc 1 16 ∷ call_free 0 ∷ return_zero ∷ []))
        64 (41 ∷ 0 ∷ 9 ∷ []) (0 ∷ [])
        ≡ Some (record { number = 42 * 2 ^ 56 + 536870912; judgement = Refused (Block (Some 10)) }) }
    ensures equal_tag { shown_judgement
        (only_main (ptr_type ∷ ptr_type ∷ []) 5 (call_malloc 0 16 ∷ call_free 0 ∷ call_malloc 1 16 ∷ call_free 0 ∷ return_zero ∷ []))
        64 (41 ∷ []) (0 ∷ [])
        ≡ Some (record { number = 42 * 2 ^ 56 + 536870912; judgement = Passes (BlockTag 42) }) }
    ensures null_number { shown_judgement
        (only_main (ptr_type ∷ ptr_type ∷ []) 4
        (call_malloc 0 16 ∷ bytes_behind 1 0 (2 ^ 64 - (42 * 2 ^ 56 + 536870912)) ∷ call_free 1 ∷ return_zero ∷ []))
        64 (41 ∷ []) (0 ∷ [])
        ≡ Some (record { number = 0; judgement = Passes NullNumber }) }
{}
