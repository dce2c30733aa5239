ghost use Rattle.hw_base.specs.AddressMap.{frame_size, AddressMap, granule_of};
ghost use Rattle.tbi_memory.specs.AddressSpace.{AddressSpace};
ghost use Rattle.tbi_memory.specs.MappedBytes.{byte_at};
ghost use Rattle.stack_tags.specs.Frames.{AreStacks, StacksState, size_sum, stacks_at_start, with_task, LivingFrame, frames_of, stack_end, top_of_stack, living_size, low_of_new};
ghost use Rattle.stack_tags.specs.FrameSteps.{StacksAfter, entered, left, with_variables};
ghost use Rattle.std.specs.Prelude.{◌≡◌, ℕ, ◌+◌, ◌-◌, ◌*◌, ◌/◌, ◌<◌, ◌≤◌, List, length, Ok};

/// If there is room, a new frame ends where the newest living one begins, and it doesn't begin below its task's stack.
pub fn a_frame_ends_at_the_one_before()
    ensures ends { (stacks : StacksState) (task : ℕ) (sizes : List ℕ) → top_of_stack stacks task ≤ stack_end stacks task
        → living_size stacks task + frame_size sizes ≤ stacks.stack_length
        → low_of_new stacks task sizes + frame_size sizes ≡ top_of_stack stacks task }
    ensures begins { (stacks : StacksState) (task : ℕ) (sizes : List ℕ) → top_of_stack stacks task ≤ stack_end stacks task
        → living_size stacks task + frame_size sizes ≤ stacks.stack_length
        → stacks.from + task * stacks.stack_length ≤ low_of_new stacks task sizes }
{}

/// A task that enters a frame and leaves it has the living frames that it had.
pub fn leaving_undoes_entering()
    ensures { (stacks : StacksState) (space : AddressSpace) (task func word : ℕ) (sizes : List ℕ) (birth born : ℕ) (after : StacksAfter) (other : AddressSpace) (died : ℕ)
        → task < length stacks.tasks
        → entered stacks space task func word sizes birth born ≡ Ok after
        → (frames_of (left after.stacks other task died).stacks task).living ≡ (frames_of stacks task).living }
{}

/// A frame's variables change no byte and no tag outside the frame.
pub fn frames_stay_inside()
    ensures bytes_below { (space : AddressSpace) (word k place : ℕ) (sizes : List ℕ) (other : ℕ) → other < place
        → byte_at (with_variables space word k place sizes).bytes other ≡ byte_at space.bytes other }
    ensures bytes_above { (space : AddressSpace) (word k place : ℕ) (sizes : List ℕ) (other : ℕ) → place + frame_size sizes ≤ other
        → byte_at (with_variables space word k place sizes).bytes other ≡ byte_at space.bytes other }
    ensures tags_below { (space : AddressSpace) (word k place : ℕ) (sizes : List ℕ) (granule : ℕ) → granule < granule_of place
        → byte_at (with_variables space word k place sizes).shadow granule ≡ byte_at space.shadow granule }
    ensures tags_above { (space : AddressSpace) (word k place : ℕ) (sizes : List ℕ) (granule : ℕ) → granule_of place + frame_size sizes / 16 ≤ granule
        → byte_at (with_variables space word k place sizes).shadow granule ≡ byte_at space.shadow granule }
{}

/// What a task's living frames take together is the sum of their sizes, since they follow each other: at the start, and after
/// each entry and return.
pub fn the_living_size_is_the_sum()
    ensures sum { (stacks : StacksState) (task : ℕ) → AreStacks stacks → living_size stacks task ≡ size_sum (frames_of stacks task).living }
    ensures start { (places : AddressMap) (ring : ℕ) → AreStacks (stacks_at_start places ring) }
    ensures task { (stacks : StacksState) → AreStacks stacks → AreStacks (with_task stacks) }
    ensures entered { (stacks : StacksState) (space : AddressSpace) (task func word : ℕ) (sizes : List ℕ) (birth born : ℕ) (after : StacksAfter)
        → AreStacks stacks → entered stacks space task func word sizes birth born ≡ Ok after → AreStacks after.stacks }
    ensures left { (stacks : StacksState) (space : AddressSpace) (task died : ℕ)
        → AreStacks stacks → AreStacks (left stacks space task died).stacks }
{}
