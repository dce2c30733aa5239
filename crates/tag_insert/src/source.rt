ghost use Rattle.std.specs.Prelude.{◌≡◌, ◌<◌, ◌^◌, length, All, IfOk, IfSome};
ghost use Rattle.mi_code.specs.LibraryCode.{library_call, outside_call, start_function};
ghost use Rattle.mi_code.specs.SourceCode.{part_number, source_code, branch_code, switch_code, call_code, gep_code};
ghost use Rattle.tag_insert.specs.SmallRegisters.{IsSmall, IsSmallOp, IsSmallInst};
ghost use Rattle.tag_insert.specs.SmallSteps.{HasSmallSteps, AreSmallSteps};

use crate::addresses::indices_code;
use crate::checks::lib_of;
use crate::edges::{case_edges, edge_to};
use crate::operands::{argument, call_result, operand_of, operands_of, result_register, returned};
use crate::types::{bits_at, width_of};
use hw_base::OutOfMemory;
use ir_core::{Case, Function, Lib, Module, Op, Placed, PlacedList, StartArg};
use mi_code::MiOp;
use std::alloc::Global;

/// The number of a part: 0 or 1.
fn part_number(part: Option<u8>) -> u8
    ensures { result ≡ part_number part }
{
    match part {
        Some(part) => part,
        None => 0,
    }
}

/// The function that `pthread_create` starts.
fn start_function(start: &Option<StartArg>) -> Option<u32>
    ensures { result ≡ start_function start.now }
{
    match start {
        Some(start) => Some(start.func),
        None => None,
    }
}

/// A call that stays a call, by the register of its result.
fn outside_call(
    alloc: Global,
    lib: Lib,
    r: Option<u32>,
    args: &PlacedList,
    start: &Option<StartArg>,
) -> Result<MiOp, OutOfMemory>
    requires args { All IsSmall args.now }
    requires small { IfSome r (λ n. n < 2 ^ 30) }
    ensures { IfOk result (λ op. op ≡ outside_call lib r args.now start.now) }
{
    let operands = operands_of(alloc, args.as_slice())?;
    Ok(MiOp::CallLib {
        lib,
        to: call_result(r),
        args: operands,
        start: start_function(start),
    })
}

/// A call of a library function.
fn library_call(
    alloc: Global,
    f: &Function,
    lib: Lib,
    r: Option<u32>,
    args: &PlacedList,
    start: &Option<StartArg>,
) -> Result<MiOp, OutOfMemory>
    requires few { length f.now.regs < 2 ^ 30 }
    requires args { All IsSmall args.now }
    requires small { IfSome r (λ n. n < 2 ^ 30) }
    ensures { IfOk result (λ op. op ≡ library_call f.now lib r args.now start.now) }
{
    match lib {
        Lib::LifetimeStart => Ok(MiOp::Nop),
        Lib::LifetimeEnd => Ok(MiOp::Nop),
        Lib::Assume => Ok(MiOp::Nop),
        Lib::Bits { op, width } => {
            let to = result_register(f, r);
            let operands = operands_of(alloc, args.as_slice())?;
            Ok(MiOp::Bits {
                op,
                width,
                to,
                args: operands,
            })
        }
        Lib::Overflow { op, width } => {
            let to = result_register(f, r);
            Ok(MiOp::Overflow {
                op,
                width,
                to,
                a: argument(args, 0),
                b: argument(args, 1),
            })
        }
        other => outside_call(alloc, other, r, args, start),
    }
}

/// The branch on a condition.
fn branch_code(
    alloc: Global,
    f: &Function,
    starts: &[u32],
    here: u32,
    cond: &Placed,
    yes: u32,
    no: u32,
) -> Result<MiOp, OutOfMemory>
    requires few { length f.now.regs < 2 ^ 30 }
    requires insts { All IsSmallInst f.now.insts }
    requires cond { IsSmall cond.now }
    ensures { IfOk result (λ op. op ≡ branch_code f.now starts.now here cond.now yes no) }
{
    let first = edge_to(alloc, f, starts, here, yes)?;
    let second = edge_to(alloc, f, starts, here, no)?;
    Ok(MiOp::Branch {
        cond: operand_of(cond),
        yes: first,
        no: second,
    })
}

/// The choice among cases.
fn switch_code(
    alloc: Global,
    m: &Module,
    f: &Function,
    starts: &[u32],
    here: u32,
    on: &Placed,
    other: u32,
    cases: &[Case],
) -> Result<MiOp, OutOfMemory>
    requires few { length f.now.regs < 2 ^ 30 }
    requires insts { All IsSmallInst f.now.insts }
    requires on { IsSmall on.now }
    ensures { IfOk result (λ op. op ≡ switch_code m.now f.now starts.now here on.now other cases.now) }
{
    let width = bits_at(m, on.ty);
    let edge = edge_to(alloc, f, starts, here, other)?;
    let edges = case_edges(alloc, f, starts, here, cases)?;
    Ok(MiOp::Switch {
        width,
        on: operand_of(on),
        other: edge,
        cases: edges,
    })
}

/// The call of a defined function.
fn call_code(
    alloc: Global,
    func: u32,
    r: Option<u32>,
    args: &PlacedList,
) -> Result<MiOp, OutOfMemory>
    requires args { All IsSmall args.now }
    requires small { IfSome r (λ n. n < 2 ^ 30) }
    ensures { IfOk result (λ op. op ≡ call_code func r args.now) }
{
    let operands = operands_of(alloc, args.as_slice())?;
    Ok(MiOp::Call {
        func,
        to: call_result(r),
        args: operands,
    })
}

/// The computation of an address.
fn gep_code(
    alloc: Global,
    m: &Module,
    to: u32,
    ty: u32,
    base: &Placed,
    indices: &PlacedList,
) -> Result<MiOp, OutOfMemory>
    requires base { IsSmall base.now }
    requires indices { All IsSmall indices.now }
    requires steps { HasSmallSteps m.now ty indices.now }
    ensures { IfOk result (λ op. op ≡ gep_code m.now to ty base.now indices.now) }
{
    let steps = indices_code(alloc, m, ty, indices.as_slice())?;
    Ok(MiOp::Gep {
        to,
        base: operand_of(base),
        indices: steps,
    })
}

/// The machine instruction of an instruction in block `here`, by the register of its result and what it does; a phi has none.
pub fn source_code(
    alloc: Global,
    m: &Module,
    f: &Function,
    starts: &[u32],
    here: u32,
    r: Option<u32>,
    op: &Op,
) -> Result<Option<MiOp>, OutOfMemory>
    requires few { length f.now.regs < 2 ^ 30 }
    requires insts { All IsSmallInst f.now.insts }
    requires op { IsSmallOp op.now }
    requires small { IfSome r (λ n. n < 2 ^ 30) }
    requires steps { AreSmallSteps m.now op.now }
    ensures { IfOk result (λ made. made ≡ source_code m.now f.now starts.now here r op.now) }
{
    let to = result_register(f, r);
    let made = match op {
        Op::Binary { op, a, b } => MiOp::Binary {
            op: *op,
            width: bits_at(m, a.ty),
            to,
            a: operand_of(a),
            b: operand_of(b),
        },
        Op::Icmp { pred, a, b } => MiOp::Icmp {
            pred: *pred,
            width: width_of(m, a.ty),
            to,
            a: operand_of(a),
            b: operand_of(b),
        },
        Op::Cast { op, a, to: ty } => MiOp::Cast {
            op: *op,
            from: bits_at(m, a.ty),
            width: bits_at(m, *ty),
            to,
            a: operand_of(a),
        },
        Op::Select { cond, a, b } => MiOp::Select {
            to,
            cond: operand_of(cond),
            a: operand_of(a),
            b: operand_of(b),
        },
        Op::Freeze { a } => MiOp::Freeze {
            to,
            a: operand_of(a),
        },
        Op::Phi { .. } => return Ok(None),
        Op::Alloca { index, .. } => MiOp::Alloca {
            to,
            variable: *index,
        },
        Op::Load { ty, at, .. } => MiOp::Load {
            width: width_of(m, *ty),
            to,
            at: operand_of(at),
        },
        Op::Store { value, at, .. } => MiOp::Store {
            width: width_of(m, value.ty),
            value: operand_of(value),
            at: operand_of(at),
        },
        Op::Gep { of, base, indices } => gep_code(alloc, m, to, *of, base, indices)?,
        Op::Fence => MiOp::Nop,
        Op::Rmw { op, at, value, .. } => MiOp::Rmw {
            op: *op,
            width: bits_at(m, value.ty),
            to,
            at: operand_of(at),
            value: operand_of(value),
        },
        Op::CmpXchg {
            at,
            expected,
            new,
            ..
        } => MiOp::CmpXchg {
            width: bits_at(m, new.ty),
            to,
            at: operand_of(at),
            expected: operand_of(expected),
            new: operand_of(new),
        },
        Op::ExtractValue { of, part } => MiOp::Part {
            to,
            of: operand_of(of),
            part: part_number(*part),
        },
        Op::Call { func, args, .. } => call_code(alloc, *func, r, args)?,
        Op::CallLib {
            declare,
            args,
            start,
            ..
        } => library_call(alloc, f, lib_of(m, *declare), r, args, start)?,
        Op::Br { block } => MiOp::Jump {
            edge: edge_to(alloc, f, starts, here, *block)?,
        },
        Op::BrIf { cond, yes, no } => branch_code(alloc, f, starts, here, cond, *yes, *no)?,
        Op::Switch { on, other, cases } => switch_code(
            alloc,
            m,
            f,
            starts,
            here,
            on,
            *other,
            cases.as_slice(),
        )?,
        Op::Ret { value } => MiOp::Ret {
            value: returned(value),
        },
        Op::Unreachable => MiOp::Unreachable,
    };
    Ok(Some(made))
}
