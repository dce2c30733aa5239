ghost use Rattle.std.specs.Prelude.{ℕ, List};
ghost use Rattle.detection.specs.SmallProgram.{small_program, small_setting};
ghost use Rattle.ir_check_flow.specs.Checked.{IsChecked};
ghost use Rattle.accepted_detection.specs.AcceptedRuns.{DetectsAlways};

/// Programs of which the theorem speaks: modules with one global and a write of a byte so many bytes after the start of a block of 10
/// bytes pass all checks, wherever the write is. That one of them exits, and that the violation of another is reported or missed, is
/// shown beside the theorem for modules that can be run. The function does nothing when it runs.
pub fn the_theorem_speaks_of_accepted_programs()
    ensures checked { (off : ℕ) → IsChecked (small_program off) }
    ensures detects { (off : ℕ) (tags : List ℕ) (turns : ℕ → ℕ) (bound : ℕ) → DetectsAlways (small_setting off tags) turns bound }
{}
