ghost use Rattle.std.specs.Prelude.{◌≡◌, ◌≢◌, ℕ, ◌+◌, ◌≤◌, List, [], IfOk, false};
ghost use Rattle.hw_base.specs.declared.endings.Status.TheVariants.{Full as FullStatus};
ghost use Rattle.hw_base.specs.declared.numbers.TheConstants.{MOST_STEPS};
ghost use Rattle.hw_tags.specs.TaskRuns.{IsStuck, run_from};
ghost use Rattle.global_tags.specs.Loading.{CanBeLoaded};
ghost use Rattle.ir_core.specs.Runnable.{IsRunnable};
ghost use Rattle.ir_machine.specs.Built.{IsBuiltCode};
ghost use Rattle.ir_machine.specs.MachineStates.{IsMachineOf, world_of};
ghost use Rattle.ir_machine.specs.Runs.{run_of, step_in};
ghost use Rattle.ir_machine.specs.State.{MachineSetting};
ghost use Rattle.mi_code.specs.Instrumentation.{instrumented};
ghost use Rattle.hw_run.specs.Closing.{full_line, status_of};
ghost use Rattle.hw_run.specs.RunEnds.{IsGathered, Shows};

use crate::closing::{closing_text, full_line};
use crate::ends::{Gathered, RunEnd};
use crate::steps::run_steps;
use hw_base::{ByteList, Full, OutOfMemory, Status};
use hw_tags::Options;
use ir_core::Module;
use ir_machine::{Machine, StartError};
use mi_code::Code;
use std::alloc::Global;

fn status_of(end: RunEnd) -> Status
    ensures { result ≡ status_of end }
{
    match end {
        RunEnd::Spent => Status::Spent,
        RunEnd::Exit(_) => Status::Ended,
        RunEnd::Trap { .. } => Status::Trapped,
        RunEnd::Mismatch(_) => Status::Reported,
        RunEnd::Full(_) => Status::Full,
    }
}

/// The run of a machine that was started, under a bound. The error is that memory ran out.
pub(crate) fn run_started(
    alloc: Global,
    program: &Module,
    start: Machine,
    bound: u64,
) -> Result<Gathered, OutOfMemory>
    requires held { start.lost ≡ false }
    requires bound { start.steps + bound ≤ MOST_STEPS }
    ensures { IfOk result (λ gathered. (setting : MachineSetting) (turns : ℕ → ℕ) → IsMachineOf setting start
        → run_from (step_in setting) [] turns bound (world_of start) ≢ IsStuck
        → IsGathered program.now bound (run_from (step_in setting) [] turns bound (world_of start)) gathered) }
{
    let mut machine = start;
    let made = run_steps(alloc, &mut machine, bound)?;
    let text = closing_text(alloc, program, &machine, made.end, bound)?;
    Ok(Gathered {
        status: status_of(made.end),
        output: made.output,
        text,
    })
}

/// What is shown if there is no room for the variables of `main`. The error is that memory ran out.
fn full_at_start(alloc: Global, full: Full) -> Result<Gathered, OutOfMemory>
    ensures { IfOk result (λ gathered. Shows [] FullStatus (full_line full 0) gathered) }
{
    let text = full_line(alloc, full, 0)?;
    Ok(Gathered {
        status: Status::Full,
        output: ByteList::new(alloc),
        text,
    })
}

/// The whole run of a module whose code has only instructions that the machine runs: what it prints, its status
/// and its closing text are those of the definition's run, for every input. The error is that memory ran out.
pub fn run_gathered(
    alloc: Global,
    program: &Module,
    code: Code,
    options: &Options,
) -> Result<Gathered, OutOfMemory>
    requires runnable { IsRunnable program.now }
    requires instrumented { code ≡ instrumented program.now }
    requires built { IsBuiltCode code }
    requires globals { CanBeLoaded program.now }
    ensures { IfOk result (λ gathered. (input : List ℕ) → IsGathered program.now options.now.steps (run_of program.now options.now input) gathered) }
{
    match Machine::new(alloc, program, code, options) {
        Ok(machine) => run_started(alloc, program, machine, options.steps),
        Err(StartError::Full(full)) => full_at_start(alloc, full),
        Err(StartError::OutOfMemory) => Err(OutOfMemory),
    }
}
