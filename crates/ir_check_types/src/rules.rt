ghost use Rattle.std.specs.Prelude.{◌≡◌};
ghost use Rattle.std.specs.List.{list_any};
ghost use Rattle.ir_core.specs.Progress.{is_loop};
ghost use Rattle.ir_core.specs.Resolved.{HasLayouts};
ghost use Rattle.ir_check_types.specs.Order.{first_among};
ghost use Rattle.ir_check_types.specs.Rules.{declare_fault, operation_fault, name_fault, instruction_fault, instructions_fault, is_result, are_simple, has_simple_types, function_fault, global_fault, loop_fault, type_fault, IsTypeCheck};

use crate::addresses::address_fault;
use crate::calls::{call_fault, outside_call_fault, parameter_types};
use crate::given::{given_type, is_value_type};
use crate::instructions::{
    alloca_fault, binary_fault, cast_fault, compare_fault, exchange_fault, freeze_fault,
    load_fault, part_fault, phi_fault, return_fault, rmw_fault, select_fault, store_fault,
};
use crate::operands::{is_number_type, type_of, typed_fault};
use crate::order::{earlier, unless};
use crate::signatures::declare_fault;
use crate::switches::switch_fault;
use ir_core::{Fault, Function, GlobalVar, Inst, IrType, Module, Op, Place, Refusal, TypeLayout};

/// The rules of an operation, whose instruction is at a place.
fn operation_fault(m: &Module, f: &Function, place: Place, op: &Op) -> Option<Refusal>
    requires { HasLayouts m.now }
    ensures { result ≡ operation_fault m.now f.now place op.now }
{
    match op {
        Op::Binary { a, b, .. } => binary_fault(m, f, place, a, b),
        Op::Icmp { a, b, .. } => compare_fault(m, f, a, b),
        Op::Cast { op, a, to } => cast_fault(m, f, place, *op, a, *to),
        Op::Select { cond, a, b } => select_fault(m, f, place, cond, a, b),
        Op::Freeze { a } => freeze_fault(m, f, place, a),
        Op::Phi { ty, entries } => phi_fault(m, f, place, *ty, entries.as_slice()),
        Op::Alloca { ty, count, .. } => alloca_fault(m, f, place, *ty, count),
        Op::Load { ty, at, .. } => load_fault(m, f, place, *ty, at),
        Op::Store { value, at, .. } => store_fault(m, f, place, value, at),
        Op::Gep { of, base, indices } => address_fault(m, f, place, *of, base, indices.as_slice()),
        Op::Rmw { at, value, .. } => rmw_fault(m, f, place, at, value),
        Op::CmpXchg {
            at,
            expected,
            new,
            ..
        } => exchange_fault(m, f, place, at, expected, new),
        Op::ExtractValue { of, part } => part_fault(m, f, place, of, *part),
        Op::Call { func, result, args } => call_fault(m, f, place, *func, *result, args.as_slice()),
        Op::CallLib {
            declare,
            result,
            args,
            start,
        } => outside_call_fault(m, f, place, *declare, *result, args.as_slice(), start),
        Op::BrIf { cond, .. } => typed_fault(m, f, IrType::Int(1), cond),
        Op::Switch { on, cases, .. } => switch_fault(m, f, on, cases.as_slice()),
        Op::Ret { value } => return_fault(m, f, place, value),
        Op::Fence | Op::Br { .. } | Op::Unreachable => None,
    }
}

/// Only what gives a value has a name for it.
fn name_fault(m: &Module, inst: &Inst) -> Option<Refusal>
    ensures { result ≡ name_fault m.now inst.now }
{
    let holds = inst.result.is_none() || is_value_type(given_type(m, &inst.op));
    unless(holds, Fault::BadType, inst.place)
}

fn instruction_fault(m: &Module, f: &Function, inst: &Inst) -> Option<Refusal>
    requires { HasLayouts m.now }
    ensures { result ≡ instruction_fault m.now f.now inst.now }
{
    earlier(
        name_fault(m, inst),
        operation_fault(m, f, inst.place, &inst.op),
    )
}

fn instructions_fault(m: &Module, f: &Function, insts: &[Inst]) -> Option<Refusal>
    requires { HasLayouts m.now }
    ensures { result ≡ instructions_fault m.now f.now insts.now }
{
    insts.iter().fold(None, |so_far, inst| {
        earlier(so_far, instruction_fault(m, f, inst))
    })
}

fn is_result(ty: IrType) -> bool
    ensures { result ≡ is_result ty }
{
    match ty {
        IrType::Void | IrType::Int(_) | IrType::Ptr => true,
        _ => false,
    }
}

/// Whether types by number are those of integers and pointers.
fn are_simple(m: &Module, types: &[u32]) -> bool
    ensures { result ≡ are_simple m.now types.now }
{
    types.iter().all(|ty| is_number_type(type_of(m, *ty)))
}

/// Whether a function's parameters are integers and pointers, and its result is one or nothing.
fn has_simple_types(m: &Module, f: &Function) -> bool
    ensures { result ≡ has_simple_types m.now f.now }
{
    is_result(type_of(m, f.result)) && are_simple(m, parameter_types(f))
}

fn function_fault(m: &Module, f: &Function) -> Option<Refusal>
    requires { HasLayouts m.now }
    ensures { result ≡ function_fault m.now f.now }
{
    let header = unless(has_simple_types(m, f), Fault::BadType, f.place);
    earlier(header, instructions_fault(m, f, f.insts.as_slice()))
}

/// A variable's type has a size, and its first value is one of the type.
fn global_fault(m: &Module, g: &GlobalVar) -> Option<Refusal>
    requires { HasLayouts m.now }
    ensures { result ≡ global_fault m.now g.now }
{
    unless(g.fits && m.has_size(g.ty), Fault::BadType, g.place)
}

fn is_loop(layout: &TypeLayout) -> bool
    ensures { result ≡ is_loop layout.now }
{
    match layout {
        TypeLayout::Loop => true,
        _ => false,
    }
}

fn has_loop(layouts: &[TypeLayout]) -> bool
    ensures { result ≡ list_any is_loop layouts.now }
{
    layouts.iter().any(|layout| is_loop(layout))
}

/// No type holds itself.
fn loop_fault(m: &Module) -> Option<Refusal>
    ensures { result ≡ loop_fault m.now }
{
    let some = has_loop(m.layouts.as_slice());
    unless(!some, Fault::BadType, Place { line: 1, column: 1 })
}

fn globals_fault(m: &Module) -> Option<Refusal>
    requires { HasLayouts m.now }
    ensures { result ≡ first_among (global_fault m.now) m.now.globals }
{
    m.globals
        .as_slice()
        .iter()
        .fold(None, |so_far, g| earlier(so_far, global_fault(m, g)))
}

fn declares_fault(m: &Module) -> Option<Refusal>
    ensures { result ≡ first_among (declare_fault m.now) m.now.declares }
{
    m.declares
        .as_slice()
        .iter()
        .fold(None, |so_far, d| earlier(so_far, declare_fault(m, d)))
}

fn functions_fault(m: &Module) -> Option<Refusal>
    requires { HasLayouts m.now }
    ensures { result ≡ first_among (function_fault m.now) m.now.functions }
{
    m.functions
        .as_slice()
        .iter()
        .fold(None, |so_far, f| earlier(so_far, function_fault(m, f)))
}

fn type_fault(m: &Module) -> Option<Refusal>
    requires { HasLayouts m.now }
    ensures { result ≡ type_fault m.now }
{
    let code = earlier(declares_fault(m), functions_fault(m));
    earlier(loop_fault(m), earlier(globals_fault(m), code))
}

/// Checks the types of a module whose names are resolved: that no type holds itself, that what needs a size has one, that
/// operands have the types that instructions ask for, that calls match the functions that they name, and that known functions
/// are declared with their types. The error is the first fault in the text, `BadType` or `Unsupported`, with its place: at the
/// instruction for a rule of the instruction as a whole, at the operand for a rule of an operand, else at the name of the
/// variable or function, and at 1:1 for a type that holds itself. It takes no memory. The time is in proportion to the module,
/// but for the cases of a `switch`, where it grows with their square.
pub fn check_types(module: &Module) -> Result<(), Refusal>
    requires { HasLayouts module.now }
    ensures { IsTypeCheck module.now result }
{
    match type_fault(module) {
        None => Ok(()),
        Some(refusal) => Err(refusal),
    }
}
