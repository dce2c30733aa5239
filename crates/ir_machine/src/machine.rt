ghost use Rattle.std.specs.Prelude.{◌≡◌, ℕ, ◌+◌, ◌^◌, ◌<◌, ◌≤◌, All, false, true, [], length, slice_get, Err, IsErr, IsOk, IfOk, List};
ghost use Rattle.ir_machine.specs.RunStates.{ending_of};
ghost use Rattle.ir_machine.specs.MachineStates.{IsEnd};
ghost use Rattle.hw_base.specs.declared.numbers.TheConstants.{MOST_STEPS};

use crate::StartError;
use crate::calls::registers_of;
use crate::program::Program;
use crate::progress::{Ending, Progress};
use crate::run::Run;
use crate::stepped::Stepped;
use crate::turn::turn;
use dbg_sites::Chains;
use hw_base::OutOfMemory;
use hw_tags::{Options, Words};
use ir_core::Module;
use mi_code::Code;
use std::alloc::Global;
use std::marker::Model;

/// A run of instrumented code, step by step. The instructions that it runs are not yet those of tasks and of input.
#[derive(Drop)]
pub struct Machine {
    program: Program,
    run: Run,
    words: Words,
    numbers: Vec<u128>,
    steps: u64,
    lost: bool,
}

impl Model for Machine {
    ghost use Rattle.ir_machine.specs.MachineStates.{MachineState, IsReady};

    ghost Value = { MachineState };

    ghost view = { λ m. record { program = m.program; run = m.run; words = m.words; steps = m.steps; lost = m.lost } };

    ghost invariant = { λ m. IsReady (record { program = m.program; run = m.run; words = m.words; steps = m.steps; lost = m.lost }) };
}

/// The end of a run, as a step returns it.
#[inline(never)]
fn ended(ending: Ending) -> Stepped
    ensures { IsEnd (ending_of ending) result }
{
    match ending {
        Ending::Exit(value) => Stepped::Exit(value.cast_signed()),
        Ending::Trap { trap, task, chain } => Stepped::Trap { trap, task, chain },
        Ending::Report(raw) => Stepped::Mismatch(raw),
        Ending::Full(full) => Stepped::Full(full),
    }
}

impl Machine {
    ghost use Rattle.hw_tags.specs.TaskRuns.{world_step, Next};
    ghost use Rattle.global_tags.specs.Loading.{CanBeLoaded};
    ghost use Rattle.ir_machine.specs.State.{MachineSetting, MachineWorld};
    ghost use Rattle.hw_base.specs.declared.endings.Full.{Full as NoRoom};
    ghost use Rattle.ir_core.specs.declared.ir_module.Function.{Function};
    ghost use Rattle.ir_machine.specs.declared.start_error.StartError.{StartError as StartErrorOf};
    ghost use Rattle.ir_machine.specs.Built.{IsBuiltCode, IsPlainAt};
    ghost use Rattle.ir_machine.specs.Runs.{step_in};
    ghost use Rattle.ir_machine.specs.MachineStates.{IsFullAtStart, IsMachineOf, IsStep, IsStarted, world_of};

    /// The machine before the first step: the module's globals are in memory, and `main` is entered. The code is that of its
    /// functions and has only instructions that the machine runs, and `main` is one of them. It fails if the variables of `main`
    /// don't fit into its stack, or if memory runs out.
    pub fn new(
        alloc: Global,
        program: &Module,
        code: Code,
        options: &Options,
    ) -> Result<Machine, StartError>
        requires built { IsBuiltCode code }
        requires globals { CanBeLoaded program.now }
        requires variables { All (λ (f : Function). All (λ size. size < 2 ^ 64) f.allocas) program.now.functions }
        requires main { program.now.main < length code }
        ensures started { IfOk result (λ m. IsStarted program.now code options.now m) }
        ensures full { (full : NoRoom) → result ≡ Err (StartErrorOf.Full full) → IsFullAtStart program.now code options.now full }
    {
        let main = program.main;
        let registers = registers_of(&code, main);
        let instrumented = Program::new(alloc, program, code)?;
        let mut words = Words::new(alloc, &options.tags)?;
        let mut run = Run::new(alloc, program, &mut words, main, registers, options)?;
        let place = run.enter_if(&instrumented, &mut words, main, 0)?;
        run.go_to(place);
        Ok(Machine {
            program: instrumented,
            run,
            words,
            numbers: Vec::new(alloc),
            steps: 0,
            lost: false,
        })
    }

    /// Byte number i of those that the last step wrote that wrote any, counted from 0, or none if there are no more.
    pub fn wrote(&self, i: u64) -> Option<u8>
        ensures { result ≡ slice_get self.now.run.printed i }
    {
        self.run.printed_at(i)
    }

    /// The chains of sites: those of the calls and of the site at which a trap came.
    pub fn chains(&self) -> &Chains
        ensures { result.now ≡ self.now.run.seen.shared.chains }
    {
        self.run.chains()
    }

    /// How many steps were made.
    pub fn steps(&self) -> u64
        ensures { result ≡ self.now.steps }
    {
        self.steps
    }

    /// One step of the run: one source instruction of the task, with what the definition's step does, prints and how it ends.
    /// No instruction that is run here reads input. The error is that memory ran out; each later step returns it too. A
    /// step of an instruction that only reads and writes registers and the program's memory takes no memory if the run goes on.
    #[inline(always)]
    pub fn step(&mut self) -> Result<Stepped, OutOfMemory>
        requires { self.old.steps < MOST_STEPS }
        ensures step { (setting : MachineSetting) (turns : ℕ → ℕ) → IsMachineOf setting self.old → self.old.lost ≡ false
            → IsStep (world_step (step_in setting) [] turns (world_of self.old)) result self.new }
        ensures same_setting { (setting : MachineSetting) → IsMachineOf setting self.old → self.old.lost ≡ false
            → IfOk result (λ found. IsMachineOf setting self.new) }
        ensures plain { (setting : MachineSetting) (turns : ℕ → ℕ) (w : MachineWorld) (printed : List ℕ) → IsMachineOf setting self.old
            → self.old.lost ≡ false → IsPlainAt self.old.program.code self.old.run.seen.frame
            → world_step (step_in setting) [] turns (world_of self.old) ≡ Next w printed → IsOk result }
        ensures lost { self.old.lost ≡ true → IsErr result }
        ensures count { self.old.lost ≡ false → self.new.steps ≡ self.old.steps + 1 }
        ensures kept { IfOk result (λ found. self.new.lost ≡ self.old.lost) }
        ensures program { self.new.program ≡ self.old.program }
    {
        if self.lost {
            return Err(OutOfMemory);
        }
        self.steps += 1;
        self.run.begin_step(self.steps);
        match turn(
            &self.program,
            &mut self.run,
            &mut self.words,
            &mut self.numbers,
        ) {
            Progress::Ran => Ok(Stepped::Ran),
            Progress::Printed => Ok(Stepped::Wrote(self.run.printed_count())),
            Progress::Returned => Ok(ended(self.run.ending())),
            Progress::Ended => Ok(ended(self.run.ending())),
            Progress::NoMemory => {
                self.lost = true;
                Err(OutOfMemory)
            }
        }
    }
}
