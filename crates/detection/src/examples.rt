ghost use Rattle.std.specs.Prelude.{◌≡◌, ℕ, ◌+◌, ◌*◌, ◌^◌, List, [], ◌∷◌, None, Some};
ghost use Rattle.hw_tags.specs.TaskRuns.{Ended};
ghost use Rattle.hw_tags.specs.Word.{word};
ghost use Rattle.hw_tags.specs.declared.words_spec.WordsSpec.TheVariants.{Cycle};
ghost use Rattle.ir_core.specs.Runnable.{IsRunnable};
ghost use Rattle.ir_machine.specs.Runs.{machine_run};
ghost use Rattle.ir_machine.specs.State.{Exited as MachineExited, MachineWorld, Reported};
ghost use Rattle.ir_machine.specs.declared.found.Raw.{Raw};
ghost use Rattle.simulation.specs.Checks.{refusing_found};
ghost use Rattle.detection.specs.Detection.{Detects};
ghost use Rattle.simulation.specs.Relation.{IsSetting};
ghost use Rattle.detection.specs.SmallProgram.{small_program, small_setting};
ghost use Rattle.tag_story.specs.ShownStory.{shown_judgement};
ghost use Rattle.tag_story.specs.declared.judgement.Coincidence.TheVariants.{Granules};
ghost use Rattle.tag_story.specs.declared.judgement.Judgement.TheVariants.{Passes, Refused};
ghost use Rattle.tag_story.specs.declared.judgement.Refusing.TheVariants.{Granule};

/// Programs of which the detection theorem speaks: modules with one global and a write of a byte to a block of 10 bytes, or after it.
/// They can be run, and have settings on the program's map. If the write is to the last byte of the block, the machine exits as the
/// source does, by the theorem. If it is just after the block, the tag rule refuses it if the block's tag is 42, by the tag at the end
/// of its short granule, and so the machine reports it, by the theorem; and it passes it if the tag is 10. The function does nothing
/// when it runs.
pub fn the_theorem_speaks_of_a_program()
    ensures runs { (off : ℕ) → IsRunnable (small_program off) }
    ensures has_settings { (off : ℕ) (tags : List ℕ) → IsSetting (small_setting off tags) }
    ensures detects { (off : ℕ) (tags : List ℕ) (turns : ℕ → ℕ) (bound : ℕ) → Detects (small_setting off tags) turns bound }
    ensures kept { (m : MachineWorld) × (printed : List (List ℕ))
        × (machine_run (small_setting 9 (41 ∷ [])) (word (Cycle (0 ∷ []))) 20 ≡ Ended m printed (MachineExited 0)) }
    ensures refused { shown_judgement (small_program 10) 64 (41 ∷ []) (0 ∷ [])
        ≡ Some (record {
          number = 42 * 2 ^ 56 + 536870922;
          judgement = Refused (Granule 536870912 42 10 (Some 42) 11);
        }) }
    ensures reported { (m : MachineWorld) × (printed : List (List ℕ)) × (raw : Raw)
        × (machine_run (small_setting 10 (41 ∷ [])) (word (Cycle (0 ∷ []))) 20 ≡ Ended m printed (Reported raw))
        × (raw.number ≡ 42 * 2 ^ 56 + 536870922) × (refusing_found raw.found ≡ Granule 536870912 42 10 (Some 42) 11) }
    ensures missed { shown_judgement (small_program 10) 64 (9 ∷ []) (0 ∷ [])
        ≡ Some (record {
          number = 10 * 2 ^ 56 + 536870922;
          judgement = Passes (Granules (Some (536870912, 536870912)) None);
        }) }
{}
