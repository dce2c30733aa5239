ghost use Rattle.std.specs.Prelude.{◌≡◌, ℕ, ◌+◌, ◌≤◌, false, [], IfOk};
ghost use Rattle.hw_base.specs.declared.numbers.TheConstants.{MOST_STEPS};
ghost use Rattle.hw_tags.specs.TaskRuns.{run_from};
ghost use Rattle.ir_machine.specs.MachineStates.{IsMachineOf, world_of};
ghost use Rattle.ir_machine.specs.Runs.{step_in};
ghost use Rattle.ir_machine.specs.State.{MachineSetting};
ghost use Rattle.hw_run.specs.RunEnds.{IsRun};

use crate::ends::{RunEnd, StepsMade};
use crate::gathering::gather;
use hw_base::{ByteList, OutOfMemory};
use ir_machine::{Machine, Stepped};
use std::alloc::Global;

fn made(output: ByteList, end: RunEnd) -> StepsMade
    ensures { result ≡ record { output = output; end = end } }
{
    StepsMade { output, end }
}

/// Steps of a machine until the run ends, `bound` at most: what they printed and how they came to an end is that of the
/// definition's run from the machine's state, whatever its turn words. The error is that memory ran out.
pub fn run_steps(alloc: Global, machine: &mut Machine, bound: u64) -> Result<StepsMade, OutOfMemory>
    requires held { machine.old.lost ≡ false }
    requires bound { machine.old.steps + bound ≤ MOST_STEPS }
    ensures { (setting : MachineSetting) (turns : ℕ → ℕ) → IsMachineOf setting machine.old
        → IfOk result (λ made. IsRun (run_from (step_in setting) [] turns bound (world_of machine.old)) made machine.new) }
{
    let mut output = ByteList::new(alloc);
    let mut left = bound;
    while left > 0 {
        left -= 1;
        match machine.step() {
            Ok(Stepped::Ran) => continue,
            Ok(Stepped::Wrote(count)) => gather(machine, count, &mut output)?,
            Ok(Stepped::Exit(value)) => return Ok(made(output, RunEnd::Exit(value))),
            Ok(Stepped::Trap { trap, task, chain }) => {
                return Ok(made(output, RunEnd::Trap { trap, task, chain }));
            }
            Ok(Stepped::Mismatch(raw)) => return Ok(made(output, RunEnd::Mismatch(raw))),
            Ok(Stepped::Full(full)) => return Ok(made(output, RunEnd::Full(full))),
            Ok(Stepped::WantsInput) => return Ok(made(output, RunEnd::Spent)),
            Err(error) => return Err(error),
        }
    }
    Ok(made(output, RunEnd::Spent))
}
