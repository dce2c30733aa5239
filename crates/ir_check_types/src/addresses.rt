ghost use Rattle.std.specs.Prelude.{◌≡◌};
ghost use Rattle.ir_core.specs.NumberTypes.{type_of, field_type};
ghost use Rattle.ir_core.specs.Resolved.{HasLayouts};
ghost use Rattle.ir_check_types.specs.Instructions.{is_constant, is_field_index, is_step, part_type, step_fault, steps_fault, indices_fault, address_fault};

use crate::instructions::sized_fault;
use crate::operands::{constant_number, integer_fault, is_same, type_of, typed_fault};
use crate::order::{earlier, unless};
use ir_core::{Fault, Function, IrType, Module, Operand, Place, Placed, Refusal};

fn is_constant(operand: Operand) -> bool
    ensures { result ≡ is_constant operand }
{
    match operand {
        Operand::Int(_) | Operand::Null => true,
        _ => false,
    }
}

/// Whether an index is a constant `i32` below the count of a struct's fields.
fn is_field_index(m: &Module, count: u32, index: &Placed) -> bool
    ensures { result ≡ is_field_index m.now count index.now }
{
    is_same(type_of(m, index.ty), IrType::Int(32))
        && (index.fits
            && (is_constant(index.operand) && constant_number(index.operand) < count as u128))
}

/// Whether an index into a type goes into its parts.
fn is_step(m: &Module, ty: IrType, index: &Placed) -> bool
    ensures { result ≡ is_step m.now ty index.now }
{
    match ty {
        IrType::Array { .. } => true,
        IrType::Struct { count, .. } => is_field_index(m, count, index),
        _ => false,
    }
}

/// The type of a field of a struct whose fields begin at `first` in the module's list.
fn field_type(m: &Module, first: u32, field: u128) -> IrType
    ensures { result ≡ type_of m.now (field_type m.now first field) }
{
    let fields = m.fields.as_slice();
    let at = u128::from(first).saturating_add(field);
    if at < fields.len() as u128 {
        type_of(m, fields[at as usize])
    } else {
        type_of(m, 0)
    }
}

/// The type that an index leads to.
fn part_type(m: &Module, ty: IrType, index: &Placed) -> IrType
    ensures { result ≡ part_type m.now ty index.now }
{
    match ty {
        IrType::Array { item, .. } => type_of(m, item),
        IrType::Struct { first, .. } => field_type(m, first, constant_number(index.operand)),
        _ => IrType::Void,
    }
}

/// An index into a type: an integer, and a step into the type's parts.
fn step_fault(m: &Module, f: &Function, ty: IrType, index: &Placed) -> Option<Refusal>
    ensures { result ≡ step_fault m.now f.now ty index.now }
{
    let step = unless(is_step(m, ty, index), Fault::BadType, index.place);
    earlier(integer_fault(m, f, index), step)
}

/// The indices after the first, each into the type that those before lead to.
fn steps_fault(m: &Module, f: &Function, ty: IrType, indices: &[Placed]) -> Option<Refusal>
    ensures { result ≡ steps_fault m.now f.now ty indices.now }
{
    let mut so_far = None;
    let mut inner = ty;
    for index in indices {
        so_far = earlier(so_far, step_fault(m, f, inner, index));
        inner = part_type(m, inner, index);
    }
    so_far
}

/// A type with indices needs a size.
fn indices_fault(
    m: &Module,
    f: &Function,
    place: Place,
    ty: u32,
    indices: &[Placed],
) -> Option<Refusal>
    requires { HasLayouts m.now }
    ensures { result ≡ indices_fault m.now f.now place ty indices.now }
{
    match indices {
        [] => None,
        [first, rest @ ..] => {
            let steps = steps_fault(m, f, type_of(m, ty), rest);
            let all = earlier(integer_fault(m, f, first), steps);
            earlier(sized_fault(m, ty, place), all)
        }
    }
}

/// The address of a part of a value: a pointer, and indices into a type.
pub(crate) fn address_fault(
    m: &Module,
    f: &Function,
    place: Place,
    ty: u32,
    base: &Placed,
    indices: &[Placed],
) -> Option<Refusal>
    requires { HasLayouts m.now }
    ensures { result ≡ address_fault m.now f.now place ty base.now indices.now }
{
    let parts = indices_fault(m, f, place, ty, indices);
    earlier(typed_fault(m, f, IrType::Ptr, base), parts)
}
