ghost use Rattle.std.specs.Prelude.{◌≡◌, ◌≢◌, ℕ, ◌<◌, true, List, [], ◌∷◌, None, Some, Option, Ok, Err, length, map, option_map, slice_get};
ghost use Rattle.dbg_sites.specs.ChainTable.{ChainEntry, IsChainTable};
ghost use Rattle.hw_base.specs.declared.accesses.Access.{Access};
ghost use Rattle.hw_base.specs.declared.accesses.Access.TheVariants.{Free, Write};
ghost use Rattle.hw_base.specs.declared.pointers.Base.{Base};
ghost use Rattle.hw_base.specs.TaggedAddress.{address_of};
ghost use Rattle.hw_base.specs.declared.pointers.Site.{Site};
ghost use Rattle.ir_machine.specs.CallSteps.{with_variables};
ghost use Rattle.ir_machine.specs.State.{MachineSetting, MachineShared};
ghost use Rattle.ir_machine.specs.declared.found.Found.TheVariants.{Block, Memory};
ghost use Rattle.ir_meaning.specs.AccessRule.{Fine, WritesConstant, access_answer};
ghost use Rattle.ir_meaning.specs.Births.{Birth, Heap, Stack, bytes_at};
ghost use Rattle.ir_meaning.specs.State.{Born, Died, News};
ghost use Rattle.ir_meaning.specs.Values.{SourceByte, Value};
ghost use Rattle.simulation.specs.Writes.{AreKnown, put_memory, put_told};
ghost use Rattle.simulation.specs.BirthsAndDeaths.{AreBorn, ChainsStay, block_born, block_died, frame_left, told_born, told_died};
ghost use Rattle.simulation.specs.Checks.{FindsJudged, IsPassed, lies_inside};
ghost use Rattle.simulation.specs.Images.{Stays};
ghost use Rattle.simulation.specs.Parts.{AreTold, HasRegisters, IsChain, IsKnownValue};
ghost use Rattle.simulation.specs.Relation.{IsSetting, SharedRelated, story_setting};
ghost use Rattle.stack_tags.specs.FrameSteps.{entered, left};
ghost use Rattle.stack_tags.specs.Frames.{LivingFrame, TaskFrames};
ghost use Rattle.tag_alloc.specs.HeapBlocks.{free_mismatch};
ghost use Rattle.tag_alloc.specs.HeapSteps.{after_death, allocated};
ghost use Rattle.tag_alloc.specs.declared.blocks.Block.{Block as HeapBlock};
ghost use Rattle.tag_story.specs.Judging.{access_judged, free_judged, refusing};
ghost use Rattle.tag_story.specs.Story.{Story, StoryBirth, StorySetting, byte_image, number_of, value_image};
ghost use Rattle.tag_story.specs.StoryFacts.{IsLaidOut};
ghost use Rattle.tag_story.specs.Telling.{all_told, told};
ghost use Rattle.tag_story.specs.ToldRun.{ToldShared};
ghost use Rattle.tbi_memory.specs.AddressSpace.{check, read, with_bytes, written};
ghost use Rattle.tbi_memory.specs.declared.mem_fault.MemFault.TheVariants.{ReadOnly};

/// Births and deaths move no object that was born before and change no tag, so that the number of a value stays, and
/// registers that have the images of values go on to have them. The function does nothing when it runs.
pub fn images_stay()
    ensures places { (e : StorySetting) (w v : Story) (news : List News) → all_told e w news ≡ Ok v → Stays w.births v.births }
    ensures values { (before after : List StoryBirth) (value : Value) → Stays before after → IsKnownValue before value
        → value_image after value ≡ value_image before value }
    ensures registers { (before after : List StoryBirth) (values : List (Option Value)) (numbers : List ℕ)
        → Stays before after → HasRegisters before values numbers → HasRegisters after values numbers }
{}

/// A birth keeps what all tasks share related: of a block, with its least place and its tag, and of the variables of a frame, below
/// its task's newest one. The source's objects are zero, and so is the machine's memory there. Or both sides are full, with the
/// same numbers. A table of chains that knows all that it knew keeps it as well, so that a birth's chain may be new. The function
/// does nothing when it runs.
pub fn births_keep_the_relation()
    ensures chains { (setting : MachineSetting) (t : ToldShared) (m : MachineShared) (table : List ChainEntry)
        → ChainsStay m.chains table → IsChainTable table → SharedRelated setting t m → SharedRelated setting t (record m { chains = table }) }
    ensures blocks { (setting : MachineSetting) (t : ToldShared) (m : MachineShared) (task size number : ℕ) (chain : List Site)
        → IsSetting setting → SharedRelated setting t m → IsChain m.chains number chain
        → AreBorn (λ story after. SharedRelated setting (told_born t Heap task chain (size ∷ []) story) (block_born m after))
        (told (story_setting setting) t.story (Born (length t.source.births) Heap task chain (size ∷ [])))
        (allocated m.heap m.memory (setting.word m.drawn) size m.births number) }
    ensures frames { (setting : MachineSetting) (t : ToldShared) (m : MachineShared) (task func number : ℕ) (chain : List Site) (sizes : List ℕ)
        (frames : TaskFrames)
        → IsSetting setting → SharedRelated setting t m → IsChain m.chains number chain
        → slice_get m.stacks.tasks task ≡ Some frames → task < setting.places.most_tasks
        → AreBorn (λ story after. SharedRelated setting (told_born t (Stack func) task chain sizes story) (with_variables m after))
        (told (story_setting setting) t.story (Born (length t.source.births) (Stack func) task chain sizes))
        (entered m.stacks m.memory task func (setting.word m.drawn) sizes m.births number) }
{}

/// A death keeps what all tasks share related: of a living block, whose memory has a free tag from then on, and of a task's newest
/// frame, whose memory has the tag 0. Both sides remember what died, as much of it as a task remembers at all. The function does
/// nothing when it runs.
pub fn deaths_keep_the_relation()
    ensures blocks { (setting : MachineSetting) (t : ToldShared) (m : MachineShared) (task number i : ℕ) (chain : List Site) (block : HeapBlock)
        → IsSetting setting → SharedRelated setting t m → IsChain m.chains number chain → slice_get m.heap.living i ≡ Some block
        → (story : Story) × (told (story_setting setting) t.story (Died block.birth task chain) ≡ Ok story)
        × SharedRelated setting (told_died t block.birth task chain story)
        (block_died m (after_death m.heap m.memory (setting.word m.drawn) task number block)) }
    ensures frames { (setting : MachineSetting) (t : ToldShared) (m : MachineShared) (task number : ℕ) (chain : List Site) (frames : TaskFrames)
        (newest : LivingFrame) (older : List LivingFrame)
        → IsSetting setting → SharedRelated setting t m → IsChain m.chains number chain
        → slice_get m.stacks.tasks task ≡ Some frames → frames.living ≡ newest ∷ older
        → (story : Story) × (told (story_setting setting) t.story (Died newest.frame.birth task chain) ≡ Ok story)
        × SharedRelated setting (told_died t newest.frame.birth task chain story) (frame_left m (left m.stacks m.memory task number)) }
{}

/// In related states the checks of the machine find what the story says, for every number and size: nothing if the story says
/// that the access or the free passes, and else what the story says refuses it. So a report comes exactly if the tag rule, on
/// the places and tags of the story alone, refuses the access. The function does nothing when it runs.
pub fn checks_find_what_the_story_says()
    ensures accesses { (setting : MachineSetting) (t : ToldShared) (m : MachineShared) (number size : ℕ) → SharedRelated setting t m
        → FindsJudged (access_judged (story_setting setting) t.story t.source.births number size)
        (option_map Memory (check m.memory number size)) }
    ensures frees { (setting : MachineSetting) (t : ToldShared) (m : MachineShared) (number : ℕ) → SharedRelated setting t m
        → FindsJudged (free_judged t.story number) (option_map Block (free_mismatch m.heap number)) }
{}

/// The tag rule passes each access that the access rule finds fine, on the places and tags of the story, with any tag words:
/// nothing refuses a read or a write within a living object, a write to a constant included, and a fine free passes. The
/// function does nothing when it runs.
pub fn no_fine_access_is_refused()
    ensures accesses { (setting : MachineSetting) (objects : List Birth) (w : Story) (access : Access) (base : Base) (off count align : ℕ)
        → IsSetting setting → IsLaidOut (story_setting setting) w → AreTold objects w.births
        → access ≢ Free → lies_inside (access_answer objects access base off count align) ≡ true
        → refusing (story_setting setting) w objects (number_of w.births base off) count ≡ None }
    ensures frees { (setting : MachineSetting) (objects : List Birth) (w : Story) (base : Base) (off count align : ℕ)
        → IsSetting setting → IsLaidOut (story_setting setting) w → AreTold objects w.births
        → access_answer objects Free base off count align ≡ Fine
        → IsPassed (free_judged w (number_of w.births base off)) }
{}

/// In related states the bytes of each fine read or write are mapped in the machine's memory, and are the images of the source's
/// bytes. The function does nothing when it runs.
pub fn fine_accesses_read_the_images()
    ensures { (setting : MachineSetting) (t : ToldShared) (m : MachineShared) (access : Access) (base : Base) (off count align : ℕ)
        → IsSetting setting → SharedRelated setting t m
        → access ≢ Free → access_answer t.source.births access base off count align ≡ Fine
        → read m.memory (number_of t.story.births base off) count
        ≡ Ok (map (byte_image t.story.births) (bytes_at t.source.births base off count)) }
{}

/// A write that the access rule finds fine keeps states related: memory takes the images of the bytes, no other object's byte
/// changes, nor a last byte that has a tag. A write to a constant is refused, by the range of the constants. The function does
/// nothing when it runs.
pub fn writes_keep_the_relation()
    ensures taken { (setting : MachineSetting) (t : ToldShared) (m : MachineShared) (base : Base) (off align : ℕ) (numbers : List ℕ)
        → IsSetting setting → SharedRelated setting t m → access_answer t.source.births Write base off (length numbers) align ≡ Fine
        → written m.memory (number_of t.story.births base off) numbers
        ≡ Ok (with_bytes m.memory (address_of (number_of t.story.births base off)) numbers) }
    ensures related { (setting : MachineSetting) (t : ToldShared) (m : MachineShared) (base : Base) (off align : ℕ) (bytes : List SourceByte)
        → IsSetting setting → SharedRelated setting t m → access_answer t.source.births Write base off (length bytes) align ≡ Fine
        → AreKnown t.story.births bytes
        → SharedRelated setting (put_told t base off bytes)
        (put_memory m (address_of (number_of t.story.births base off)) (map (byte_image t.story.births) bytes)) }
    ensures constants { (setting : MachineSetting) (t : ToldShared) (m : MachineShared) (base : Base) (off align : ℕ) (numbers : List ℕ)
        → IsSetting setting → SharedRelated setting t m
        → access_answer t.source.births Write base off (length numbers) align ≡ WritesConstant
        → written m.memory (number_of t.story.births base off) numbers ≡ Err ReadOnly }
{}
