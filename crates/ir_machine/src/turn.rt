ghost use Rattle.std.specs.Prelude.{◌≡◌, ◌≢◌, ℕ, ◌+◌, ◌-◌, ◌^◌, ◌<◌, ◌≤◌, All, List, drop, length, slice_get, None, Some};
ghost use Rattle.std.specs.Option.{ForSome, option_copied};
ghost use Rattle.hw_base.specs.declared.endings.Input.{Input};
ghost use Rattle.mi_code.specs.declared.code_functions.Mi.{Mi};
ghost use Rattle.mi_code.specs.declared.operations.MiOp.{MiOp};
ghost use Rattle.hw_tags.specs.TaskRuns.{Stuck};
ghost use Rattle.ir_machine.specs.Built.{HasCode, HasReturns, IsBuilt, IsBuiltCode, IsBuiltAdded, IsPlainAfter, IsPlainAt, IsPlainFrom, IsReturn};
ghost use Rattle.ir_machine.specs.CallSteps.{code_at};
ghost use Rattle.ir_machine.specs.InstructionStep.{machine_step, marked_step, operation_step, steps_within};
ghost use Rattle.ir_machine.specs.Programs.{AreSmall, HasProgram};
ghost use Rattle.ir_machine.specs.RunStates.{AddsChain, AreNext, GrowsLittle, HasRoom, IsOutcome, IsPlainOutcome, left_at, passed};
ghost use Rattle.ir_machine.specs.State.{MachineSetting, MachineSeen, MachineOutcome};

use crate::calls::instructions_of;
use crate::checks::other_check;
use crate::library::library;
use crate::operations::operation;
use crate::program::Program;
use crate::progress::Progress;
use crate::run::Run;
use hw_base::{OutOfMemory, Site};
use hw_tags::Words;
use mi_code::{Code, Mark, Mi, MiOp};

/// The site of an instruction that isn't an entry.
fn site_of(mi: &Mi) -> Option<Site>
    requires { IsBuilt mi.now }
    ensures entry { result ≡ None → mi.now.op ≡ MiOp.Enter }
    ensures stuck { result ≡ None → (setting : MachineSetting) (given : Input) (next : MachineSeen → MachineOutcome) (s : MachineSeen)
        → marked_step setting given next s mi.now.mark mi.now.op ≡ Stuck }
    ensures built { ForSome result (λ site. IsBuiltAdded mi.now.op) }
    ensures step { ForSome result (λ site. (setting : MachineSetting) (given : Input) (next : MachineSeen → MachineOutcome) (s : MachineSeen)
        → marked_step setting given next s mi.now.mark mi.now.op ≡ operation_step setting given site next s mi.now.op) }
{
    match mi.mark {
        Mark::Source(site) => Some(site),
        Mark::Added(site) => Some(site),
        Mark::Entry => None,
    }
}

/// The instruction at a place, if there is one.
fn instruction_at(insts: &[Mi], place: usize) -> Option<&Mi>
    ensures found { option_copied result ≡ slice_get insts.now place }
{
    insts.get(place)
}

/// The return after the end of a frame with variables. Nothing is said of an entry, where no run comes to.
fn returned(code: &Code, run: &mut Run, mi: &Mi) -> Progress
    requires return_is { IsReturn mi.now.op }
    requires task { run.old.seen.task ≡ 0 }
    ensures step { (setting : MachineSetting) (given : Input) (next : MachineSeen → MachineOutcome) → HasCode setting code.now
        → marked_step setting given next run.old.seen mi.now.mark mi.now.op ≢ Stuck
        → IsOutcome (marked_step setting given next run.old.seen mi.now.mark mi.now.op) result run.new }
    ensures keeps { result ≢ Progress.NoMemory → run.new.seen.shared ≡ run.old.seen.shared }
{
    match &mi.op {
        MiOp::Ret { value } => run.ret(code, value),
        _ => unreachable!(),
    }
}

/// The end of a frame with variables at a site, and the return after it, in the same step. The task's frame has these instructions.
fn leave_and_return(code: &Code, run: &mut Run, site: Site, insts: &[Mi]) -> Progress
    requires here { insts.now ≡ (code_at code.now run.old.seen.frame.func).insts }
    requires returns { ForSome (slice_get insts.now (run.old.seen.frame.place + 1)) (λ mi. IsReturn mi.op) }
    requires task { run.old.seen.task ≡ 0 }
    requires place { run.old.seen.frame.place + 1 < 2 ^ 64 }
    requires chains { length run.old.seen.shared.chains < 2 ^ 32 - 1 }
    ensures step { (setting : MachineSetting) (given : Input) (fuel : ℕ) → HasCode setting code.now
        → steps_within setting given fuel (left_at run.old.seen site) ≢ Stuck
        → IsOutcome (steps_within setting given fuel (left_at run.old.seen site)) result run.new }
    ensures adds { result ≢ Progress.NoMemory → AddsChain run.old.seen.shared run.new.seen.shared }
{
    match run.leave(site) {
        Ok(()) => {}
        Err(OutOfMemory) => return Progress::NoMemory,
    }
    match instruction_at(insts, run.place()) {
        Some(mi) => returned(code, run, mi),
        None => Progress::Ran,
    }
}

/// An instruction of a step, of the task's frame with these instructions. The result is none if it is a check that passes: then the
/// step goes on at the next instruction. Nothing is said of an entry, where no run comes to.
#[inline(always)]
fn instruction(
    program: &Program,
    run: &mut Run,
    words: &mut Words,
    numbers: &mut Vec<u128>,
    insts: &[Mi],
    mi: &Mi,
) -> Option<Progress>
    requires here { insts.now ≡ (code_at program.now.code run.old.seen.frame.func).insts }
    requires found { slice_get insts.now run.old.seen.frame.place ≡ Some mi.now }
    requires returns { HasReturns insts.now }
    requires built { IsBuilt mi.now }
    requires small { AreSmall program.now }
    requires task { run.old.seen.task ≡ 0 }
    requires place { run.old.seen.frame.place + 1 < 2 ^ 64 }
    requires chains { length run.old.seen.shared.chains < 2 ^ 32 - 2 }
    requires room { HasRoom run.old.seen.shared }
    ensures passed { result ≡ None → run.new ≡ passed run.old }
    ensures words { result ≡ None → words.new ≡ words.old }
    ensures passes { result ≡ None → (setting : MachineSetting) (given : Input) (next : MachineSeen → MachineOutcome)
        → marked_step setting given next run.old.seen mi.now.mark mi.now.op ≡ next run.new.seen }
    ensures check { result ≡ None → (insts : List Mi) → IsPlainAfter mi.now.op (IsPlainFrom insts) → IsPlainFrom insts }
    ensures step { ForSome result (λ progress. (setting : MachineSetting) (given : Input) (fuel : ℕ) → HasProgram setting program.now
        → AreNext setting words.old run.old.seen.shared.drawn
        → marked_step setting given (steps_within setting given fuel) run.old.seen mi.now.mark mi.now.op ≢ Stuck
        → IsOutcome (marked_step setting given (steps_within setting given fuel) run.old.seen mi.now.mark mi.now.op) progress run.new) }
    ensures plain { ForSome result (λ progress. (setting : MachineSetting) (given : Input) (next : MachineSeen → MachineOutcome) (insts : List Mi) → IsPlainAfter mi.now.op (IsPlainFrom insts)
        → IsPlainOutcome (marked_step setting given next run.old.seen mi.now.mark mi.now.op) progress run.new) }
    ensures grows { ForSome result (λ progress. progress ≢ Progress.NoMemory → GrowsLittle words.old words.new run.old.seen.shared run.new.seen.shared) }
{
    let Some(site) = site_of(mi) else {
        return Some(Progress::Ran);
    };
    match &mi.op {
        MiOp::One { at, n, access } => run.check_one(site, at, *n, *access),
        MiOp::Sized { .. } | MiOp::Str { .. } | MiOp::FreeCheck { .. } => other_check(
            run, site, &mi.op,
        ),
        MiOp::Call { func, args, .. } => {
            Some(run.call(program, words, site, *func, args, numbers))
        }
        MiOp::CallLib { lib, to, args, .. } => Some(library(run, words, site, *lib, *to, args)),
        MiOp::Leave => Some(leave_and_return(&program.code, run, site, insts)),
        _ => Some(operation(&program.code, run, numbers, site, &mi.op)),
    }
}

/// A whole step of the task, whose frame has these instructions: checks that pass, and then the instruction that they were added
/// for. Nothing is said of a place without an instruction, where no run comes to.
#[inline(always)]
fn instructions(
    program: &Program,
    run: &mut Run,
    words: &mut Words,
    numbers: &mut Vec<u128>,
    insts: &[Mi],
) -> Progress
    requires here { insts.now ≡ (code_at program.now.code run.old.seen.frame.func).insts }
    requires built { All IsBuilt insts.now }
    requires returns { HasReturns insts.now }
    requires small { AreSmall program.now }
    requires task { run.old.seen.task ≡ 0 }
    requires chains { length run.old.seen.shared.chains < 2 ^ 32 - 2 }
    requires room { HasRoom run.old.seen.shared }
    ensures step { (setting : MachineSetting) (given : Input) → HasProgram setting program.now → AreNext setting words.old run.old.seen.shared.drawn
        → steps_within setting given (length insts.now) run.old.seen ≢ Stuck
        → IsOutcome (steps_within setting given (length insts.now) run.old.seen) result run.new }
    ensures plain { (setting : MachineSetting) (given : Input) → HasCode setting program.now.code → IsPlainFrom (drop run.old.seen.frame.place insts.now)
        → IsPlainOutcome (steps_within setting given (length insts.now) run.old.seen) result run.new }
    ensures grows { result ≢ Progress.NoMemory → GrowsLittle words.old words.new run.old.seen.shared run.new.seen.shared }
{
    for _tried in 0..insts.len() {
        match instruction_at(insts, run.place()) {
            Some(mi) => match instruction(program, run, words, numbers, insts, mi) {
                Some(progress) => return progress,
                None => continue,
            },
            None => return Progress::Ran,
        }
    }
    Progress::Ran
}

/// A whole step of the task.
#[inline(never)]
pub fn turn(
    program: &Program,
    run: &mut Run,
    words: &mut Words,
    numbers: &mut Vec<u128>,
) -> Progress
    requires all { IsBuiltCode program.now.code }
    requires small { AreSmall program.now }
    requires task { run.old.seen.task ≡ 0 }
    requires chains { length run.old.seen.shared.chains < 2 ^ 32 - 2 }
    requires room { HasRoom run.old.seen.shared }
    ensures step { (setting : MachineSetting) (given : Input) → HasProgram setting program.now → AreNext setting words.old run.old.seen.shared.drawn
        → machine_step setting given run.old.seen ≢ Stuck → IsOutcome (machine_step setting given run.old.seen) result run.new }
    ensures plain { (setting : MachineSetting) (given : Input) → HasCode setting program.now.code → IsPlainAt program.now.code run.old.seen.frame
        → IsPlainOutcome (machine_step setting given run.old.seen) result run.new }
    ensures grows { result ≢ Progress.NoMemory → GrowsLittle words.old words.new run.old.seen.shared run.new.seen.shared }
{
    let insts = instructions_of(&program.code, run.func());
    instructions(program, run, words, numbers, insts)
}
