ghost use Rattle.ir_tasks.specs.Frames.{Frame, register, with_register, at_place};
ghost use Rattle.ir_tasks.specs.TaskFrames.{IsUnfinished, HasFrames};
ghost use Rattle.std.specs.Prelude.{◌≡◌, ◌≢◌, ℕ, ◌≤◌, ◌<◌, List, length};

/// A register has what was last set there, and setting it changes no other register and no place. A register past the end
/// isn't set.
pub fn registers_keep_what_is_set()
    ensures same { (frame : Frame) (r n : ℕ) → r < length frame.registers → register (with_register frame r n) r ≡ n }
    ensures other { (frame : Frame) (r other n : ℕ) → other ≢ r → register (with_register frame r n) other ≡ register frame other }
    ensures count { (frame : Frame) (r n : ℕ) → length (with_register frame r n).registers ≡ length frame.registers }
    ensures past_the_end { (frame : Frame) (r n : ℕ) → length frame.registers ≤ r → with_register frame r n ≡ frame }
    ensures place { (frame : Frame) (r n : ℕ) → (with_register frame r n).place ≡ frame.place }
    ensures registers { (frame : Frame) (r place : ℕ) → register (at_place frame place) r ≡ register frame r }
{}

/// A task is unfinished exactly if it has a frame.
pub fn unfinished_tasks_have_frames()
    ensures some { (tasks : List (List Frame)) (task : ℕ) → IsUnfinished tasks task
        → (frame : Frame) × (callers : List Frame) × HasFrames tasks task frame callers }
    ensures unfinished { (tasks : List (List Frame)) (task : ℕ) (frame : Frame) (callers : List Frame) → HasFrames tasks task frame callers
        → IsUnfinished tasks task }
{}
