ghost use Rattle.hw_tags.specs.declared.options.Options.{Options};
ghost use Rattle.hw_tags.specs.TaskRuns.{Ended, IsStuck, Next, resumed, world_step};
ghost use Rattle.ir_core.specs.declared.ir_module.Module.{Module};
ghost use Rattle.ir_core.specs.Runnable.{IsRunnable};
ghost use Rattle.mi_code.specs.Instrumentation.{instrumented};
ghost use Rattle.ir_machine.specs.ReachableWorlds.{HasPlaces, HasTables};
ghost use Rattle.ir_machine.specs.Runs.{machine_run, run_of, setting_of, step_in};
ghost use Rattle.ir_machine.specs.Start.{machine_start};
ghost use Rattle.ir_machine.specs.State.{MachineSetting, MachineWorld, MachineReport, MachineEnding};
ghost use Rattle.std.specs.Prelude.{◌≡◌, ◌≢◌, ℕ, ◌+◌, List, []};

/// A run of n + m steps is a run of m more steps after one of n, and a run that ended within its bound ends so within every
/// greater one.
pub fn runs_go_on()
    ensures sum { (setting : MachineSetting) (turns : ℕ → ℕ) (n m : ℕ)
        → machine_run setting turns (n + m) ≡ resumed (step_in setting) [] turns m (machine_run setting turns n) }
    ensures ended { (setting : MachineSetting) (turns : ℕ → ℕ) (n m : ℕ) (last : MachineWorld) (reports : List MachineReport) (ending : MachineEnding)
        → machine_run setting turns n ≡ Ended last reports ending
        → machine_run setting turns (n + m) ≡ Ended last reports ending }
{}

/// In each state of a run of a module that can be run, every frame is at an instruction of its function, the callers at calls,
/// and the first task has a frame: so at the start, and after each step.
pub fn frames_are_at_their_places()
    ensures start { (program : Module) (options : Options) (input : List ℕ) (first : MachineWorld) (report : MachineReport)
        → IsRunnable program → machine_start (setting_of program options input) ≡ Next first report → HasPlaces program first }
    ensures step { (program : Module) (options : Options) (input : List ℕ) (turns : ℕ → ℕ) (world next : MachineWorld) (report : MachineReport)
        → IsRunnable program → HasPlaces program world
        → world_step (step_in (setting_of program options input)) [] turns world ≡ Next next report → HasPlaces program next }
{}

/// In each state of a run there are as many rings of freed blocks and as many stacks as tasks, the frames of each stack follow
/// each other, the living blocks and the chains are tables, and the chain of each frame is in its table: so at the start, and
/// after each step.
pub fn tables_fit_together()
    ensures start { (setting : MachineSetting) (first : MachineWorld) (report : MachineReport)
        → machine_start setting ≡ Next first report → HasTables first }
    ensures step { (setting : MachineSetting) (turns : ℕ → ℕ) (world next : MachineWorld) (report : MachineReport)
        → HasTables world → world_step (step_in setting) [] turns world ≡ Next next report → HasTables next }
{}

/// A run of a module that can be run is never stuck: it has an instruction at each place that it comes to, and the length of a
/// function's code is enough for the instructions of a step.
pub fn a_run_is_never_stuck()
    ensures options { (program : Module) (options : Options) (input : List ℕ) → IsRunnable program → run_of program options input ≢ IsStuck }
    ensures any_setting { (setting : MachineSetting) (turns : ℕ → ℕ) (bound : ℕ)
        → IsRunnable setting.program → setting.code ≡ instrumented setting.program → machine_run setting turns bound ≢ IsStuck }
{}
