ghost use Rattle.std.specs.Prelude.{◌≡◌, ℕ, List, []};
ghost use Rattle.hw_tags.specs.Options.{IsHeapSize};
ghost use Rattle.hw_tags.specs.TaskRuns.{Ended, Spent, run_from, world_step};
ghost use Rattle.hw_tags.specs.Word.{word};
ghost use Rattle.hw_tags.specs.declared.options.Options.{Options};
ghost use Rattle.ir_core.specs.Runnable.{IsRunnable};
ghost use Rattle.ir_core.specs.declared.ir_module.Module.{Module};
ghost use Rattle.ir_machine.specs.Runs.{machine_run, run_of, setting_of, step_in};
ghost use Rattle.ir_machine.specs.Start.{machine_start, shared_at_start};
ghost use Rattle.ir_machine.specs.State.{MachineSetting, MachineWorld, Reported};
ghost use Rattle.ir_machine.specs.declared.found.Raw.{Raw};
ghost use Rattle.ir_meaning.specs.Runs.{printed_by, source_run_of};
ghost use Rattle.detection.specs.Detection.{Detects, HasRoomAlways, MeetsFault, PrintsFirst, SameButTags, machine_output, program_setting, source_run_in, told_output, told_run_of, with_words};
ghost use Rattle.detection.specs.FollowingRuns.{FollowsRun, FollowsWorldStep, told_at_start};
ghost use Rattle.ir_meaning.specs.State.{SourceReport};
ghost use Rattle.simulation.specs.Parts.{AreTold};
ghost use Rattle.simulation.specs.Relation.{IsSetting, SharedRelated, WorldRelated, story_setting};
ghost use Rattle.tag_story.specs.StoryFacts.{IsLaidOut};
ghost use Rattle.tag_story.specs.ToldRun.{ToldWorld, told_run, told_run_from, told_start, told_world_step};

/// From related worlds the machine follows the run of the source with its story, under the same turn words, input and bound on
/// steps: the same task makes each step, and prints the same bytes; the worlds are related after each step that goes on; and
/// the run ends in the same step, in the same way, with a report exactly if the tag rule refuses the violation. At a violation
/// that passes, and where the source leaves the profile, the machine has printed the same bytes before that step and goes on in
/// some way. The function does nothing when it runs.
pub fn runs_are_followed()
    ensures steps { (setting : MachineSetting) (turns : ℕ → ℕ) (t : ToldWorld) (m : MachineWorld)
        → IsSetting setting → WorldRelated setting t m
        → FollowsWorldStep setting (told_world_step (story_setting setting) setting.input turns t)
        (world_step (step_in setting) [] turns m) }
    ensures runs { (setting : MachineSetting) (turns : ℕ → ℕ) (bound : ℕ) (t : ToldWorld) (m : MachineWorld)
        → IsSetting setting → WorldRelated setting t m
        → FollowsRun setting (told_run_from (story_setting setting) setting.input turns bound t)
        (run_from (step_in setting) [] turns bound m) }
{}

/// A run starts in related states: memory has the first bytes and the tags of all globals, which are those of the source and of
/// its story, and nothing else was born. So the machine follows the start, where `main` is entered, and the whole run. The
/// function does nothing when it runs.
pub fn whole_runs_are_followed()
    ensures shared { (setting : MachineSetting) → IsSetting setting
        → SharedRelated setting (told_at_start setting) (shared_at_start setting) }
    ensures starts { (setting : MachineSetting) → IsSetting setting
        → FollowsWorldStep setting (told_start (story_setting setting)) (machine_start setting) }
    ensures runs { (setting : MachineSetting) (turns : ℕ → ℕ) (bound : ℕ) → IsSetting setting
        → FollowsRun setting (told_run (story_setting setting) setting.input turns bound) (machine_run setting turns bound) }
{}

/// Each module that can be run has a setting, on the program's map with any size of the heap that is in its range, with any
/// tag words and input: its globals end before the stacks. The function does nothing when it runs.
pub fn modules_have_settings()
    ensures any_words { (program : Module) (heap ring : ℕ) (word : ℕ → ℕ) (input : List ℕ)
        → IsRunnable program → IsHeapSize heap → IsSetting (program_setting program heap ring word input) }
    ensures options { (program : Module) (options : Options) (input : List ℕ)
        → IsRunnable program → IsSetting (setting_of program options input) }
{}

/// The story of each run is laid out, in each state that the run comes to: objects have places in their ranges, apart from each other
/// while they live, and their births, sizes and lives are those of the source. The function does nothing when it runs.
pub fn stories_of_runs_are_laid_out()
    ensures { (setting : MachineSetting) (turns : ℕ → ℕ) (bound : ℕ) (t : ToldWorld) (reports : List SourceReport)
        → IsSetting setting → told_run_of setting turns bound ≡ Spent t reports
        → IsLaidOut (story_setting setting) t.shared.story × AreTold t.shared.source.births t.shared.story.births }
{}

/// The detection theorem, for each module that can be run, each input, all tag words and turn words, each bound on steps, each
/// size of the heap and of the rings. While the source program meets no violation, the run of its instrumented code prints the
/// same bytes, makes the same steps and ends in the same way. At the first violation it has printed the same, and if the tag
/// rule refuses the access, the run reports exactly that access; else the coincidence is named by which the rule passes it.
/// Each field of `Detects` is a sentence. The function does nothing when it runs.
pub fn violations_are_detected()
    ensures any_setting { (setting : MachineSetting) (turns : ℕ → ℕ) (bound : ℕ) → IsSetting setting → Detects setting turns bound }
    ensures any_words { (program : Module) (heap ring : ℕ) (word turns : ℕ → ℕ) (input : List ℕ) (bound : ℕ)
        → IsRunnable program → IsHeapSize heap → Detects (program_setting program heap ring word input) turns bound }
    ensures options { (program : Module) (options : Options) (input : List ℕ)
        → IsRunnable program → Detects (setting_of program options input) (word options.turns) options.steps }
{}

/// A report comes of a violation alone, unless the source left the profile before: if a run ends in a report, the run of the source
/// program within the same bound meets a violation or leaves the profile, or it is stuck. The function does nothing when it
/// runs.
pub fn no_report_without_a_violation()
    ensures any_setting { (setting : MachineSetting) (turns : ℕ → ℕ) (bound : ℕ) (last : MachineWorld) (printed : List (List ℕ)) (raw : Raw)
        → IsSetting setting → machine_run setting turns bound ≡ Ended last printed (Reported raw)
        → MeetsFault (source_run_in setting turns bound) }
    ensures options { (program : Module) (options : Options) (input : List ℕ) (last : MachineWorld) (printed : List (List ℕ)) (raw : Raw)
        → IsRunnable program → run_of program options input ≡ Ended last printed (Reported raw)
        → MeetsFault (source_run_of program options input) }
{}

/// Tag words decide over tags alone: under other words the source program with its story makes the same run, and the heap or a
/// stack is full in the same step, with the same numbers. The function does nothing when it runs.
pub fn tag_words_decide_over_tags_alone()
    ensures { (setting : MachineSetting) (other : ℕ → ℕ) (turns : ℕ → ℕ) (bound : ℕ)
        → SameButTags (told_run_of setting turns bound) (told_run_of (with_words setting other) turns bound) }
{}

/// Two runs that differ in their tag words alone print the same until the first violation, until the heap or a stack is full, or until the
/// source leaves the profile: both print first all that the source program prints until then; while there is room, that is what
/// the run of the source alone prints. The function does nothing when it runs.
pub fn tag_words_change_nothing_before_a_violation()
    ensures until_full { (setting : MachineSetting) (other : ℕ → ℕ) (turns : ℕ → ℕ) (bound : ℕ) → IsSetting setting
        → PrintsFirst (told_output (told_run_of setting turns bound)) (machine_run setting turns bound)
        × PrintsFirst (told_output (told_run_of setting turns bound)) (machine_run (with_words setting other) turns bound) }
    ensures with_room { (setting : MachineSetting) (other : ℕ → ℕ) (turns : ℕ → ℕ) (bound : ℕ) → IsSetting setting
        → HasRoomAlways (told_run_of setting turns bound)
        → PrintsFirst (printed_by (source_run_in setting turns bound)) (machine_run setting turns bound)
        × PrintsFirst (printed_by (source_run_in setting turns bound)) (machine_run (with_words setting other) turns bound) }
{}

/// A program that meets no violation and stays in the profile prints under all tag words what the source program prints, while
/// the heap and the stacks have room. The function does nothing when it runs.
pub fn faultless_programs_print_the_same()
    ensures as_source { (setting : MachineSetting) (turns : ℕ → ℕ) (bound : ℕ) → IsSetting setting
        → HasRoomAlways (told_run_of setting turns bound) → ¬ MeetsFault (source_run_in setting turns bound)
        → machine_output (machine_run setting turns bound) ≡ printed_by (source_run_in setting turns bound) }
    ensures all_words { (setting : MachineSetting) (other : ℕ → ℕ) (turns : ℕ → ℕ) (bound : ℕ) → IsSetting setting
        → HasRoomAlways (told_run_of setting turns bound)
        → ¬ MeetsFault (source_run_in setting turns bound)
        → machine_output (machine_run (with_words setting other) turns bound) ≡ machine_output (machine_run setting turns bound) }
{}
