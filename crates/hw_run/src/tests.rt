ghost use Rattle.std.specs.Prelude.{◌≡◌, ◌+◌, ◌^◌, ◌<◌, ◌≤◌, All, IfOk, OnOk, [], false, length};
ghost use Rattle.mi_code.specs.declared.code_functions.Mi.{Mi as MiView};
ghost use Rattle.ir_machine.specs.Built.{IsBuilt, IsBuiltCode, IsBuiltOp};
ghost use Rattle.ir_core.specs.declared.ir_module.Function.{Function as SourceFunction};

use super::*;
use crate::closing::{ended_line, full_line, spent_line};
use crate::job::run_started;
use hw_base::{ByteList, Full, OutOfMemory, Site, SizeList, Space};
use hw_tags::{Options, WordsSpec};
use ir_core::{
    BlockList, DeclareList, Function, FunctionList, GlobalList, InstList, LayoutList, Lib, Meta,
    Module, Place, TypeIdList, TypeList,
};
use ir_machine::Machine;
use mi_code::{Code, CodeFunction, IndexList, Mark, Mi, MiList, MiOp, MiOperand, MiOperandList};
use std::alloc::Global;
use std::test::Fail;

fn add(insts: &mut MiList, func: u32, inst: u32, op: MiOp) -> Result<(), OutOfMemory>
    requires built { All IsBuilt insts.old }
    requires ops { All (λ (mi : MiView). IsBuiltOp mi.op) insts.old }
    requires op { IsBuiltOp op }
    ensures built { OnOk result (All IsBuilt insts.new) }
    ensures ops { OnOk result (All (λ (mi : MiView). IsBuiltOp mi.op) insts.new) }
{
    insts.push(Mi {
        mark: Mark::Source(Site { func, inst }),
        op,
    })
}

fn no_instructions(alloc: Global) -> MiList
    ensures built { All IsBuilt result }
    ensures ops { All (λ (mi : MiView). IsBuiltOp mi.op) result }
{
    MiList::new(alloc)
}

fn no_code(alloc: Global) -> Code
    ensures built { IsBuiltCode result }
    ensures length { length result ≡ 0 }
{
    Code::new(alloc)
}

fn add_function(alloc: Global, code: &mut Code, insts: MiList) -> Result<(), OutOfMemory>
    requires built { IsBuiltCode code.old }
    requires insts { All IsBuilt insts }
    requires ops { All (λ (mi : MiView). IsBuiltOp mi.op) insts }
    ensures built { OnOk result (IsBuiltCode code.new) }
    ensures length { OnOk result (length code.new ≡ length code.old + 1) }
{
    let mut starts = IndexList::new(alloc);
    starts.push(0)?;
    code.push(CodeFunction {
        registers: 1,
        params: 0,
        insts,
        starts,
    })
}

/// Prints an H, and calls function 1.
fn main_code(alloc: Global) -> Result<MiList, OutOfMemory>
    ensures built { IfOk result (λ insts. All IsBuilt insts) }
    ensures ops { IfOk result (λ insts. All (λ (mi : MiView). IsBuiltOp mi.op) insts) }
{
    let mut letter = MiOperandList::new(alloc);
    letter.push(MiOperand::Num(72))?;
    let print = MiOp::CallLib {
        lib: Lib::Putchar,
        to: None,
        args: letter,
        start: None,
    };
    let call = MiOp::Call {
        func: 1,
        to: None,
        args: MiOperandList::new(alloc),
    };
    let mut insts = no_instructions(alloc);
    add(&mut insts, 0, 0, print)?;
    add(&mut insts, 0, 1, call)?;
    Ok(insts)
}

/// Traps.
fn trap_code(alloc: Global) -> Result<MiList, OutOfMemory>
    ensures built { IfOk result (λ insts. All IsBuilt insts) }
    ensures ops { IfOk result (λ insts. All (λ (mi : MiView). IsBuiltOp mi.op) insts) }
{
    let mut insts = no_instructions(alloc);
    add(&mut insts, 1, 0, MiOp::Unreachable)?;
    Ok(insts)
}

/// `main` prints an H and calls a function that traps.
fn trapping_code(alloc: Global) -> Result<Code, OutOfMemory>
    ensures built { IfOk result (λ code. IsBuiltCode code) }
    ensures length { IfOk result (λ code. length code ≡ 2) }
{
    let mut code = no_code(alloc);
    add_function(alloc, &mut code, main_code(alloc)?)?;
    add_function(alloc, &mut code, trap_code(alloc)?)?;
    Ok(code)
}

fn named(alloc: Global, name: &[u8]) -> Result<Function, OutOfMemory>
    ensures { IfOk result (λ f. f.allocas ≡ []) }
{
    Ok(Function {
        name: ByteList::from_vec(name.to_vec(alloc)?),
        params: 0,
        result: 0,
        regs: TypeIdList::new(alloc),
        allocas: SizeList::new(alloc),
        blocks: BlockList::new(alloc),
        insts: InstList::new(alloc),
        place: Place { line: 1, column: 1 },
    })
}

/// A module of functions with these names alone.
fn named_module(alloc: Global, first: &[u8], second: &[u8]) -> Result<Module, OutOfMemory>
    ensures globals { IfOk result (λ program. program.globals ≡ []) }
    ensures main { IfOk result (λ program. program.main ≡ 0) }
    ensures variables { IfOk result (λ program. All (λ (f : SourceFunction). All (λ size. size < 2 ^ 64) f.allocas) program.functions) }
{
    let mut functions = FunctionList::new(alloc);
    functions.push(named(alloc, first)?)?;
    functions.push(named(alloc, second)?)?;
    Ok(Module {
        types: TypeList::new(alloc),
        fields: TypeIdList::new(alloc),
        layouts: LayoutList::new(alloc),
        globals: GlobalList::new(alloc),
        declares: DeclareList::new(alloc),
        functions,
        main: 0,
        meta: Meta::new(alloc),
    })
}

/// The machine before the first step of a module whose `main` has no variables.
fn started(
    alloc: Global,
    program: &Module,
    code: Code,
    options: &Options,
) -> Result<Machine, OutOfMemory>
    requires built { IsBuiltCode code }
    requires globals { program.now.globals ≡ [] }
    requires variables { All (λ (f : SourceFunction). All (λ size. size < 2 ^ 64) f.allocas) program.now.functions }
    requires main { program.now.main < length code }
    ensures held { IfOk result (λ machine. machine.lost ≡ false) }
    ensures first { IfOk result (λ machine. machine.steps ≡ 0) }
{
    match Machine::new(alloc, program, code, options) {
        Ok(machine) => Ok(machine),
        Err(_) => Err(OutOfMemory),
    }
}

/// The closing text of the trapping run under a bound, and what it printed.
fn trapping_run(alloc: Global, bound: u64) -> Result<(ByteList, ByteList), OutOfMemory>
    requires { bound ≤ 1000 }
{
    let program = named_module(alloc, b"main".as_slice(), b"boom".as_slice())?;
    let code = trapping_code(alloc)?;
    let options = Options {
        tags: WordsSpec::Seed(0),
        turns: WordsSpec::Seed(0),
        steps: 1_000,
        heap: 4_096,
        ring: 1,
    };
    let machine = started(alloc, &program, code, &options)?;
    let gathered = run_started(alloc, &program, machine, bound)?;
    Ok((gathered.text, gathered.output))
}

#[test]
fn a_trap_shows_its_chain_innermost_first(rt: HostRuntime) -> Result<(), Fail> {
    let (text, output) = trapping_run(rt.alloc(), 100)?;
    let expected = "trapped: unreachable in task 0, step 3\n  at boom ?\n  at main ?\n";
    assert_eq!(rt; text.as_slice(), expected.as_bytes());
    assert_eq!(rt; output.as_slice(), b"H".as_slice());
    Ok(())
}

#[test]
fn a_bound_ends_the_run(rt: HostRuntime) -> Result<(), Fail> {
    let (text, output) = trapping_run(rt.alloc(), 2)?;
    assert_eq!(rt; text.as_slice(), b"spent: step 2\n".as_slice());
    assert_eq!(rt; output.as_slice(), b"H".as_slice());
    let (text, output) = trapping_run(rt.alloc(), 0)?;
    assert_eq!(rt; text.as_slice(), b"spent: step 0\n".as_slice());
    assert!(rt; output.is_empty());
    Ok(())
}

#[test]
fn closing_lines_are_spelled_so(rt: HostRuntime) -> Result<(), Fail> {
    let alloc = rt.alloc();
    let ended = ended_line(alloc, -1, 3)?;
    assert_eq!(rt; ended.as_slice(), b"ended: exit -1, step 3\n".as_slice());
    let ended = ended_line(alloc, i32::MAX, 1_000_000_000)?;
    assert_eq!(rt;
        ended.as_slice(),
        b"ended: exit 2147483647, step 1000000000\n".as_slice()
    );
    let full = Full {
        space: Space::Stack,
        asked: 1 << 80,
        living: 16,
    };
    let expected = "full: stack, 1208925819614629174706176 asked, 16 living, step 7\n";
    assert_eq!(rt; full_line(alloc, full, 7)?.as_slice(), expected.as_bytes());
    let spent = spent_line(alloc, 12)?;
    assert_eq!(rt; spent.as_slice(), b"spent: step 12\n".as_slice());
    Ok(())
}
