ghost use Rattle.std.specs.Prelude.{◌≡◌, slice_index};
ghost use Rattle.ir_core.specs.NumberTypes.{type_of, constant_number};
ghost use Rattle.ir_core.specs.Operations.{is_number_type};
ghost use Rattle.ir_check_types.specs.Operands.{is_integer, is_same, has_its_type, is_typed, number_fault, integer_fault, typed_fault};

use crate::order::unless;
use ir_core::{Fault, Function, IrType, Module, Operand, Placed, Refusal};

/// The type with a number, `void` past the end of the module's types.
pub(crate) fn type_of(m: &Module, ty: u32) -> IrType
    ensures { result ≡ type_of m.now ty }
{
    match m.types.as_slice().get(ty as usize) {
        Some(found) => *found,
        None => IrType::Void,
    }
}

/// The type of a register, `void`'s past the end of the function's registers.
fn register_type(m: &Module, f: &Function, register: u32) -> IrType
    ensures { result ≡ type_of m.now (slice_index f.now.regs register) }
{
    match f.regs.as_slice().get(register as usize) {
        Some(ty) => type_of(m, *ty),
        None => type_of(m, 0),
    }
}

pub(crate) fn is_number_type(ty: IrType) -> bool
    ensures { result ≡ is_number_type ty }
{
    match ty {
        IrType::Int(_) | IrType::Ptr => true,
        _ => false,
    }
}

pub(crate) fn is_integer(ty: IrType) -> bool
    ensures { result ≡ is_integer ty }
{
    match ty {
        IrType::Int(_) => true,
        _ => false,
    }
}

/// Whether two types of values are one. Types of no value are one with none.
pub(crate) fn is_same(a: IrType, b: IrType) -> bool
    ensures { result ≡ is_same a b }
{
    match (a, b) {
        (IrType::Void, IrType::Void) => true,
        (IrType::Int(width), IrType::Int(other)) => width == other,
        (IrType::Ptr, IrType::Ptr) => true,
        (IrType::Pair(width), IrType::Pair(other)) => width == other,
        _ => false,
    }
}

/// Whether an operand is of its spelled type.
pub(crate) fn is_typed(m: &Module, f: &Function, placed: &Placed) -> bool
    ensures { result ≡ is_typed m.now f.now placed.now }
{
    match placed.operand {
        Operand::Reg(r) => is_same(register_type(m, f, r), type_of(m, placed.ty)),
        Operand::Global { .. } => placed.fits && is_same(type_of(m, placed.ty), IrType::Ptr),
        _ => placed.fits,
    }
}

/// An operand that is an integer or a pointer.
pub(crate) fn number_fault(m: &Module, f: &Function, placed: &Placed) -> Option<Refusal>
    ensures { result ≡ number_fault m.now f.now placed.now }
{
    let holds = is_number_type(type_of(m, placed.ty)) && is_typed(m, f, placed);
    unless(holds, Fault::BadType, placed.place)
}

/// An operand that is an integer.
pub(crate) fn integer_fault(m: &Module, f: &Function, placed: &Placed) -> Option<Refusal>
    ensures { result ≡ integer_fault m.now f.now placed.now }
{
    let holds = is_integer(type_of(m, placed.ty)) && is_typed(m, f, placed);
    unless(holds, Fault::BadType, placed.place)
}

/// An operand of this type, which is an integer's or a pointer's.
pub(crate) fn typed_fault(m: &Module, f: &Function, ty: IrType, placed: &Placed) -> Option<Refusal>
    ensures { result ≡ typed_fault m.now f.now ty placed.now }
{
    let holds = is_number_type(ty)
        && (is_same(type_of(m, placed.ty), ty) && is_typed(m, f, placed));
    unless(holds, Fault::BadType, placed.place)
}

/// The number that a constant operand is. Any other counts as 0.
pub(crate) fn constant_number(operand: Operand) -> u128
    ensures { result ≡ constant_number operand }
{
    match operand {
        Operand::Int(n) => n,
        _ => 0,
    }
}
