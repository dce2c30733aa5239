ghost use Rattle.std.specs.Prelude.{◌≡◌, ◌+◌, ◌*◌, ◌^◌, [], ◌∷◌, Some, None};
ghost use Rattle.ir_core.specs.Examples.{overflows_a_block, uses_a_freed_block, uses_a_returned_variable, writes_before_a_block, races_for_a_block};
ghost use Rattle.tag_story.specs.ShownStory.{shown_judgement};
ghost use Rattle.tag_story.specs.declared.judgement.Coincidence.TheVariants.{Granules};
ghost use Rattle.tag_story.specs.declared.judgement.Judgement.TheVariants.{Passes, Refused};
ghost use Rattle.tag_story.specs.declared.judgement.Refusing.TheVariants.{Granule};

/// Violations and what the tag rule says of them by the story alone, shown by evaluation: a write after a block of 10 bytes
/// is refused in its short granule, and passes if the block's tag is 10; a read of a freed block is refused by the free tag; a
/// read of a variable of an ended frame is refused by the tag of the frame there, and passes if both frames have one tag; a
/// write before a block passes as one to the short granule of another block that it made itself. The function does nothing
/// when it runs.
pub fn judged_violations()
    ensures short_granule { shown_judgement overflows_a_block 64 (41 ∷ []) (0 ∷ [])
        ≡ Some (record {
          number = 42 * 2 ^ 56 + 536870922;
          judgement = Refused (Granule 536870912 42 10 (Some 42) 11);
        }) }
    ensures equal_tag { shown_judgement overflows_a_block 64 (9 ∷ []) (0 ∷ [])
        ≡ Some (record {
          number = 10 * 2 ^ 56 + 536870922;
          judgement = Passes (Granules (Some (536870912, 536870912)) None);
        }) }
    ensures freed { shown_judgement uses_a_freed_block 64 (41 ∷ 26 ∷ []) (0 ∷ [])
        ≡ Some (record {
          number = 42 * 2 ^ 56 + 536870912;
          judgement = Refused (Granule 536870912 42 43 None 1);
        }) }
    ensures returned { shown_judgement uses_a_returned_variable 64 (9 ∷ 10 ∷ []) (0 ∷ [])
        ≡ Some (record {
          number = 10 * 2 ^ 56 + 268697584;
          judgement = Refused (Granule 268697584 10 11 (Some 0) 1);
        }) }
    ensures before_a_block { shown_judgement writes_before_a_block 64 (4 ∷ 41 ∷ []) (0 ∷ [])
        ≡ Some (record {
          number = 42 * 2 ^ 56 + 536870912;
          judgement = Passes (Granules None (Some (record { granule = 536870912; memory = 5; end = 1; last = 42 })));
        }) }
    ensures freed_by_another_task { shown_judgement races_for_a_block 64 (3 ∷ 41 ∷ 26 ∷ []) (1 ∷ [])
        ≡ Some (record {
          number = 42 * 2 ^ 56 + 536870912;
          judgement = Refused (Granule 536870912 42 43 None 1);
        }) }
    ensures returned_with_one_tag { shown_judgement uses_a_returned_variable 64 (9 ∷ []) (0 ∷ [])
        ≡ Some (record {
          number = 10 * 2 ^ 56 + 268697584;
          judgement = Passes (Granules (Some (268697584, 268697584)) None);
        }) }
{}
