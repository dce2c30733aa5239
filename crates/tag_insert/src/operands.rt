ghost use Rattle.std.specs.Prelude.{◌≡◌, ◌<◌, ◌^◌, length, All, IfOk, IfSome};
ghost use Rattle.mi_code.specs.MachineOperands.{operand_of, operands_of, argument, registers_of, result_register, call_result};
ghost use Rattle.mi_code.specs.SourceCode.{returned};
ghost use Rattle.tag_insert.specs.SmallRegisters.{IsSmall};

use hw_base::OutOfMemory;
use ir_core::{Function, Operand, Placed, PlacedList};
use mi_code::{MiOperand, MiOperandList};
use std::alloc::Global;

/// The machine operand of an operand.
pub fn operand_of(placed: &Placed) -> MiOperand
    requires { IsSmall placed.now }
    ensures { result ≡ operand_of placed.now }
{
    match placed.operand {
        Operand::Reg(r) => MiOperand::Reg(2 * r),
        Operand::Int(n) => MiOperand::Num(n),
        Operand::Null => MiOperand::Num(0),
        Operand::Global { global, off } => MiOperand::Global { global, off },
    }
}

/// The machine operands of arguments, in order.
pub fn operands_of(alloc: Global, args: &[Placed]) -> Result<MiOperandList, OutOfMemory>
    requires { All IsSmall args.now }
    ensures { IfOk result (λ operands. operands ≡ operands_of args.now) }
{
    let mut operands = MiOperandList::new(alloc);
    for arg in args {
        operands.push(operand_of(arg))?;
    }
    Ok(operands)
}

/// The argument at a place, or the number 0.
pub fn argument(args: &PlacedList, k: u64) -> MiOperand
    requires { All IsSmall args.now }
    ensures { result ≡ argument args.now k }
{
    match args.get(k) {
        Some(arg) => operand_of(&arg),
        None => MiOperand::Num(0),
    }
}

/// How many machine registers a frame of a function has.
pub fn registers_of(f: &Function) -> u32
    requires { length f.now.regs < 2 ^ 30 }
    ensures { result ≡ registers_of f.now }
{
    2 * f.regs.len() as u32
}

/// The machine register of a result, or the one after the last.
pub fn result_register(f: &Function, r: Option<u32>) -> u32
    requires few { length f.now.regs < 2 ^ 30 }
    requires small { IfSome r (λ n. n < 2 ^ 30) }
    ensures { result ≡ result_register f.now r }
{
    match r {
        Some(r) => 2 * r,
        None => registers_of(f),
    }
}

/// The machine register of a call's result, if it has one.
pub fn call_result(r: Option<u32>) -> Option<u32>
    requires { IfSome r (λ n. n < 2 ^ 30) }
    ensures { result ≡ call_result r }
{
    match r {
        Some(r) => Some(2 * r),
        None => None,
    }
}

/// The value that a function returns, if it returns one.
pub fn returned(value: &Option<Placed>) -> Option<MiOperand>
    requires { IfSome value.now IsSmall }
    ensures { result ≡ returned value.now }
{
    match value {
        Some(value) => Some(operand_of(value)),
        None => None,
    }
}
