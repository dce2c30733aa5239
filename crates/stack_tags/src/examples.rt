ghost use Rattle.hw_base.specs.declared.endings.Full.{Full};
ghost use Rattle.hw_base.specs.declared.endings.Space.TheVariants.{Stack};
ghost use Rattle.hw_base.specs.TaggedAddress.{tagged_address};
ghost use Rattle.tbi_memory.specs.AddressSpace.{tag_at};
ghost use Rattle.tbi_memory.specs.MappedBytes.{byte_at};
ghost use Rattle.tbi_memory.specs.SmallSpace.{small_space};
ghost use Rattle.stack_tags.specs.Frames.{variable_number, top_of_stack, frames_of};
ghost use Rattle.stack_tags.specs.FrameSteps.{entered};
ghost use Rattle.stack_tags.specs.SmallStacks.{empty_stacks, stacks_of_one, stacks_left};
ghost use Rattle.std.specs.Prelude.{◌≡◌, ℕ, Some, None, Ok, Err, [], ◌∷◌};

/// A frame of variables of 17 and 16 bytes on a stack of 64 bytes, for the word 9: they take 48 bytes below the stack's end,
/// with the tags 0x0a and 0x0b; the second variable follows the first one's two granules. A second such frame has no room.
/// When the frame is left its granules have the tag 0 and the task remembers it.
pub fn frames_by_example()
    ensures enters { entered empty_stacks small_space 0 1 9 (17 ∷ 16 ∷ []) 0 5 ≡ Ok stacks_of_one }
    ensures low { top_of_stack stacks_of_one.stacks 0 ≡ 268435472 }
    ensures first { variable_number stacks_of_one.stacks 0 0 ≡ tagged_address 10 268435472 }
    ensures second { variable_number stacks_of_one.stacks 0 1 ≡ tagged_address 11 268435504 }
    ensures first_tag { tag_at stacks_of_one.space 268435472 ≡ Some 10 }
    ensures short_tag { tag_at stacks_of_one.space 268435488 ≡ Some 1 }
    ensures last_byte { byte_at stacks_of_one.space.bytes 268435503 ≡ Some 10 }
    ensures second_tag { tag_at stacks_of_one.space 268435504 ≡ Some 11 }
    ensures below { tag_at stacks_of_one.space 268435456 ≡ Some 0 }
    ensures full { entered stacks_of_one.stacks stacks_of_one.space 0 1 9 (17 ∷ 16 ∷ []) 1 5
        ≡ Err (record { space = Stack; asked = 48; living = 48 }) }
    ensures left_tag { tag_at stacks_left.space 268435472 ≡ Some 0 }
    ensures left_top { top_of_stack stacks_left.stacks 0 ≡ 268435520 }
    ensures is_remembered { (frames_of stacks_left.stacks 0).ended
        ≡ record { func = 1; low = 268435472; word = 9; birth = 0; born = 5; died = Some 6 } ∷ [] }
{}
