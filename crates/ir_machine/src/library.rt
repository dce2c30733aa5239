ghost use Rattle.std.specs.Prelude.{◌≡◌, ◌≢◌, ℕ, ◌+◌, ◌-◌, ◌^◌, ◌<◌, length, Option};
ghost use Rattle.hw_base.specs.declared.endings.Input.{Input};
ghost use Rattle.ir_machine.specs.BlockFunctions.{calloc_step};
ghost use Rattle.ir_machine.specs.ByteFunctions.{copy_step, memcmp_step, set_step};
ghost use Rattle.ir_machine.specs.Built.{IsBuiltFunction, IsByteFunction, IsTextFunction};
ghost use Rattle.ir_machine.specs.LibraryCalls.{library_step};
ghost use Rattle.ir_machine.specs.Operands.{int_argument, long_argument, pointer_argument};
ghost use Rattle.ir_machine.specs.RunStates.{AddsChain, AreNext, GrowsLittle, HasRoom, IsOutcome};
ghost use Rattle.ir_machine.specs.State.{MachineSetting};

use crate::progress::Progress;
use crate::run::Run;
use hw_base::Site;
use hw_tags::Words;
use ir_core::Lib;
use mi_code::MiOperandList;

/// `memcpy` and `memmove`, of arguments.
fn copy(run: &mut Run, site: Site, to: Option<u32>, args: &MiOperandList) -> Progress
    requires place { run.old.seen.frame.place + 1 < 2 ^ 64 }
    requires chains { length run.old.seen.shared.chains < 2 ^ 32 - 1 }
    ensures { IsOutcome (copy_step run.old.seen site to (pointer_argument run.old.seen args.now 0) (pointer_argument run.old.seen args.now 1) (long_argument run.old.seen args.now 2)) result run.new }
{
    let target = run.pointer_argument(args, 0);
    let from = run.pointer_argument(args, 1);
    let n = run.long_argument(args, 2);
    run.copy(site, to, target, from, n)
}

/// `memset`, of arguments.
fn set(run: &mut Run, site: Site, to: Option<u32>, args: &MiOperandList) -> Progress
    requires place { run.old.seen.frame.place + 1 < 2 ^ 64 }
    requires chains { length run.old.seen.shared.chains < 2 ^ 32 - 1 }
    ensures { IsOutcome (set_step run.old.seen site to (pointer_argument run.old.seen args.now 0) (int_argument run.old.seen args.now 1) (long_argument run.old.seen args.now 2)) result run.new }
{
    let target = run.pointer_argument(args, 0);
    let value = run.int_argument(args, 1);
    let n = run.long_argument(args, 2);
    run.set_bytes(site, to, target, value, n)
}

/// `memcmp`, of arguments.
fn compare(run: &mut Run, site: Site, to: Option<u32>, args: &MiOperandList) -> Progress
    requires place { run.old.seen.frame.place + 1 < 2 ^ 64 }
    requires chains { length run.old.seen.shared.chains < 2 ^ 32 - 1 }
    ensures { IsOutcome (memcmp_step run.old.seen site to (pointer_argument run.old.seen args.now 0) (pointer_argument run.old.seen args.now 1) (long_argument run.old.seen args.now 2)) result run.new }
{
    let first = run.pointer_argument(args, 0);
    let second = run.pointer_argument(args, 1);
    let n = run.long_argument(args, 2);
    run.memcmp(site, to, first, second, n)
}

/// The call of a library function on runs of bytes. The intrinsics give nothing.
fn byte_function(
    run: &mut Run,
    site: Site,
    function: Lib,
    to: Option<u32>,
    args: &MiOperandList,
) -> Progress
    requires built { IsByteFunction function }
    requires place { run.old.seen.frame.place + 1 < 2 ^ 64 }
    requires chains { length run.old.seen.shared.chains < 2 ^ 32 - 1 }
    ensures step { (setting : MachineSetting) (given : Input) (start : Option ℕ)
        → IsOutcome (library_step setting given run.old.seen site function to args.now start) result run.new }
{
    match function {
        Lib::Memcpy => copy(run, site, to, args),
        Lib::Memmove => copy(run, site, to, args),
        Lib::LlvmMemcpy => copy(run, site, None, args),
        Lib::LlvmMemmove => copy(run, site, None, args),
        Lib::Memset => set(run, site, to, args),
        Lib::LlvmMemset => set(run, site, None, args),
        Lib::Memcmp => compare(run, site, to, args),
        _ => unreachable!(),
    }
}

/// The call of a library function that has no blocks.
#[tactic(auto, using(crate::proofs::Outcomes::from_plain))]
fn text_function(
    run: &mut Run,
    site: Site,
    function: Lib,
    to: Option<u32>,
    args: &MiOperandList,
) -> Progress
    requires built { IsTextFunction function }
    requires place { run.old.seen.frame.place + 1 < 2 ^ 64 }
    requires chains { length run.old.seen.shared.chains < 2 ^ 32 - 1 }
    ensures step { (setting : MachineSetting) (given : Input) (start : Option ℕ)
        → IsOutcome (library_step setting given run.old.seen site function to args.now start) result run.new }
{
    match function {
        Lib::Strlen => {
            let start = run.pointer_argument(args, 0);
            run.strlen(site, to, start)
        }
        Lib::Puts => {
            let start = run.pointer_argument(args, 0);
            run.puts(site, to, start)
        }
        Lib::Putchar => run.putchar(to, args),
        Lib::Exit => run.exit(args),
        Lib::Abort => run.abort(site),
        Lib::LlvmTrap => run.abort(site),
        _ => byte_function(run, site, function, to, args),
    }
}

/// `calloc` is `malloc` of the exact product of its arguments (ISO C, "The calloc function").
fn calloc(
    run: &mut Run,
    words: &mut Words,
    site: Site,
    to: Option<u32>,
    args: &MiOperandList,
) -> Progress
    requires place { run.old.seen.frame.place + 1 < 2 ^ 64 }
    requires chains { length run.old.seen.shared.chains < 2 ^ 32 - 2 }
    requires room { HasRoom run.old.seen.shared }
    ensures step { (setting : MachineSetting) → AreNext setting words.old run.old.seen.shared.drawn
        → IsOutcome (calloc_step setting run.old.seen site to (long_argument run.old.seen args.now 0) (long_argument run.old.seen args.now 1)) result run.new }
    ensures grows { result ≢ Progress.NoMemory → GrowsLittle words.old words.new run.old.seen.shared run.new.seen.shared }
{
    let count = run.long_argument(args, 0);
    let size = run.long_argument(args, 1);
    run.malloc(words, site, to, count as u128 * size as u128)
}

/// The call of a library function.
pub fn library(
    run: &mut Run,
    words: &mut Words,
    site: Site,
    function: Lib,
    to: Option<u32>,
    args: &MiOperandList,
) -> Progress
    requires built { IsBuiltFunction function }
    requires task { run.old.seen.task ≡ 0 }
    requires place { run.old.seen.frame.place + 1 < 2 ^ 64 }
    requires chains { length run.old.seen.shared.chains < 2 ^ 32 - 2 }
    requires room { HasRoom run.old.seen.shared }
    ensures step { (setting : MachineSetting) (given : Input) (start : Option ℕ) → AreNext setting words.old run.old.seen.shared.drawn
        → IsOutcome (library_step setting given run.old.seen site function to args.now start) result run.new }
    ensures grows { result ≢ Progress.NoMemory → GrowsLittle words.old words.new run.old.seen.shared run.new.seen.shared }
{
    match function {
        Lib::Malloc => {
            let size = run.long_argument(args, 0);
            run.malloc(words, site, to, size as u128)
        }
        Lib::Calloc => calloc(run, words, site, to, args),
        Lib::Realloc => {
            let number = run.pointer_argument(args, 0);
            let size = run.long_argument(args, 1);
            run.realloc(words, site, to, number, size)
        }
        Lib::Free => {
            let number = run.pointer_argument(args, 0);
            run.free(words, site, number)
        }
        _ => text_function(run, site, function, to, args),
    }
}
