ghost use Rattle.std.specs.Prelude.{◌≡◌, ◌≢◌, ℕ, List};
ghost use Rattle.hw_tags.specs.Options.{IsHeapSize};
ghost use Rattle.hw_tags.specs.TaskRuns.{Spent, Ended, IsStuck};
ghost use Rattle.hw_tags.specs.Word.{word};
ghost use Rattle.hw_tags.specs.declared.options.Options.{Options};
ghost use Rattle.ir_check_flow.specs.Checked.{IsChecked};
ghost use Rattle.ir_core.specs.declared.ir_module.Module.{Module};
ghost use Rattle.ir_machine.specs.Runs.{machine_run, run_of, setting_of};
ghost use Rattle.ir_machine.specs.State.{MachineSetting, MachineWorld, Reported};
ghost use Rattle.ir_machine.specs.declared.found.Raw.{Raw};
ghost use Rattle.ir_meaning.specs.Runs.{printed_by, source_run_of};
ghost use Rattle.ir_meaning.specs.State.{SourceReport, SourceEnding};
ghost use Rattle.detection.specs.Detection.{HasRoomAlways, machine_output, program_setting, source_run_in, source_world, told_run_of, with_words};
ghost use Rattle.simulation.specs.Relation.{IsSetting};
ghost use Rattle.tag_story.specs.ToldRun.{ToldWorld, AsSource};
ghost use Rattle.well_typed_runs.specs.GoodWorlds.{AreSmall, IsAccepted};
ghost use Rattle.well_typed_runs.specs.Typed.{TasksAreTyped};
ghost use Rattle.accepted_detection.specs.AcceptedRuns.{DetectsAlways, EndsInFault};

/// Runs of accepted modules, with any input, tag words, turn words and bound, are never stuck until the story is full: each object has
/// its place in the simulated memory, and so fewer than 2^64 bytes. While there is room, each register that holds a value holds one of
/// its type. No premise on sizes is left. The function does nothing when it runs.
pub fn accepted_runs_are_never_stuck()
    ensures small { (setting : MachineSetting) (turns : ℕ → ℕ) (bound : ℕ) (t : ToldWorld) (reports : List SourceReport)
        → IsSetting setting → told_run_of setting turns bound ≡ Spent t reports → AreSmall t.shared.source.births }
    ensures told { (setting : MachineSetting) (turns : ℕ → ℕ) (bound : ℕ)
        → IsSetting setting → IsAccepted setting.program → told_run_of setting turns bound ≢ IsStuck }
    ensures source { (setting : MachineSetting) (turns : ℕ → ℕ) (bound : ℕ)
        → IsSetting setting → IsAccepted setting.program
        → HasRoomAlways (told_run_of setting turns bound) → source_run_in setting turns bound ≢ IsStuck }
    ensures registers { (setting : MachineSetting) (turns : ℕ → ℕ) (bound : ℕ) (t : ToldWorld) (reports : List SourceReport)
        → IsSetting setting → IsAccepted setting.program
        → told_run_of setting turns bound ≡ Spent t reports → TasksAreTyped setting.program (source_world t) }
    ensures last_registers { (setting : MachineSetting) (turns : ℕ → ℕ) (bound : ℕ) (t : ToldWorld) (reports : List SourceReport) (ending : SourceEnding)
        → IsSetting setting → IsAccepted setting.program
        → told_run_of setting turns bound ≡ Ended t reports (AsSource ending) → TasksAreTyped setting.program (source_world t) }
    ensures checked { (program : Module) (heap ring : ℕ) (word turns : ℕ → ℕ) (input : List ℕ) (bound : ℕ)
        → IsChecked program → IsHeapSize heap → told_run_of (program_setting program heap ring word input) turns bound ≢ IsStuck }
{}

/// The detection theorem for each module that passed all checks, each input, all tag words and turn words, each bound on steps, each
/// size of the heap and of the rings. Each field of `Detects` is a sentence, and one of its cases always holds: none is left over of
/// which nothing is said. The function does nothing when it runs.
pub fn violations_of_accepted_modules_are_detected()
    ensures any_setting { (setting : MachineSetting) (turns : ℕ → ℕ) (bound : ℕ)
        → IsSetting setting → IsAccepted setting.program → DetectsAlways setting turns bound }
    ensures any_words { (program : Module) (heap ring : ℕ) (word turns : ℕ → ℕ) (input : List ℕ) (bound : ℕ)
        → IsChecked program → IsHeapSize heap → DetectsAlways (program_setting program heap ring word input) turns bound }
    ensures options { (program : Module) (options : Options) (input : List ℕ)
        → IsChecked program → DetectsAlways (setting_of program options input) (word options.turns) options.steps }
{}

/// A report comes of a violation alone, unless the source left the profile before: if a run of an accepted module ends in a report, the
/// run of the source program within the same bound meets a violation or leaves the profile. The function does nothing when it runs.
pub fn no_report_without_a_violation()
    ensures any_setting { (setting : MachineSetting) (turns : ℕ → ℕ) (bound : ℕ) (last : MachineWorld) (printed : List (List ℕ)) (raw : Raw)
        → IsSetting setting → IsAccepted setting.program
        → machine_run setting turns bound ≡ Ended last printed (Reported raw) → EndsInFault (source_run_in setting turns bound) }
    ensures options { (program : Module) (options : Options) (input : List ℕ) (last : MachineWorld) (printed : List (List ℕ)) (raw : Raw)
        → IsChecked program → run_of program options input ≡ Ended last printed (Reported raw)
        → EndsInFault (source_run_of program options input) }
{}

/// An accepted program that meets no violation and stays in the profile prints under all tag words what the source program prints,
/// while the heap and the stacks have room. The function does nothing when it runs.
pub fn faultless_accepted_programs_print_the_same()
    ensures as_source { (setting : MachineSetting) (turns : ℕ → ℕ) (bound : ℕ)
        → IsSetting setting → IsAccepted setting.program
        → HasRoomAlways (told_run_of setting turns bound) → ¬ EndsInFault (source_run_in setting turns bound)
        → machine_output (machine_run setting turns bound) ≡ printed_by (source_run_in setting turns bound) }
    ensures all_words { (setting : MachineSetting) (other : ℕ → ℕ) (turns : ℕ → ℕ) (bound : ℕ)
        → IsSetting setting → IsAccepted setting.program
        → HasRoomAlways (told_run_of setting turns bound) → ¬ EndsInFault (source_run_in setting turns bound)
        → machine_output (machine_run (with_words setting other) turns bound) ≡ machine_output (machine_run setting turns bound) }
{}
