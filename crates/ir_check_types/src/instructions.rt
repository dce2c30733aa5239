ghost use Rattle.std.specs.Prelude.{◌≡◌, take, Some};
ghost use Rattle.ir_core.specs.NumberTypes.{type_of};
ghost use Rattle.ir_core.specs.Resolved.{HasLayouts};
ghost use Rattle.ir_check_types.specs.Instructions.{number_type_fault, binary_fault, compare_fault, is_cast, cast_fault, select_fault, freeze_fault, entries_fault, phi_fault, count_fault, sized_fault, alloca_fault, load_fault, store_fault, atomic_fault, rmw_fault, exchange_fault, is_pair, part_fault, return_fault};

use crate::operands::{
    integer_fault, is_integer, is_number_type, is_same, is_typed, number_fault, type_of,
    typed_fault,
};
use crate::order::{earlier, unless};
use hw_base::CastOp;
use ir_core::{Fault, Function, IrType, Module, PhiEntry, Place, Placed, Refusal};

/// The type is one of an integer or a pointer, or there is a fault here.
fn number_type_fault(m: &Module, ty: u32, place: Place) -> Option<Refusal>
    ensures { result ≡ number_type_fault m.now ty place }
{
    unless(is_number_type(type_of(m, ty)), Fault::BadType, place)
}

/// Two integers of one type; an integer is given.
pub(crate) fn binary_fault(
    m: &Module,
    f: &Function,
    place: Place,
    a: &Placed,
    b: &Placed,
) -> Option<Refusal>
    ensures { result ≡ binary_fault m.now f.now place a.now b.now }
{
    let operands = earlier(integer_fault(m, f, a), integer_fault(m, f, b));
    earlier(number_type_fault(m, a.ty, place), operands)
}

/// Two integers or two pointers of one type.
pub(crate) fn compare_fault(m: &Module, f: &Function, a: &Placed, b: &Placed) -> Option<Refusal>
    ensures { result ≡ compare_fault m.now f.now a.now b.now }
{
    earlier(
        number_fault(m, f, a),
        typed_fault(m, f, type_of(m, a.ty), b),
    )
}

/// `trunc` goes to a narrower integer, `zext` and `sext` to a wider one.
fn is_cast(op: CastOp, from: IrType, to: IrType) -> bool
    ensures { result ≡ is_cast op from to }
{
    match (from, to) {
        (IrType::Int(from), IrType::Int(to)) => match op {
            CastOp::Trunc => to < from,
            CastOp::ZExt => from < to,
            CastOp::SExt => from < to,
        },
        _ => is_integer(to),
    }
}

/// A conversion to a narrower or wider integer, of an integer.
pub(crate) fn cast_fault(
    m: &Module,
    f: &Function,
    place: Place,
    op: CastOp,
    a: &Placed,
    to: u32,
) -> Option<Refusal>
    ensures { result ≡ cast_fault m.now f.now place op a.now to }
{
    let holds = is_cast(op, type_of(m, a.ty), type_of(m, to));
    earlier(unless(holds, Fault::BadType, place), integer_fault(m, f, a))
}

/// A bit, and two values of one type.
pub(crate) fn select_fault(
    m: &Module,
    f: &Function,
    place: Place,
    cond: &Placed,
    a: &Placed,
    b: &Placed,
) -> Option<Refusal>
    ensures { result ≡ select_fault m.now f.now place cond.now a.now b.now }
{
    let values = earlier(
        number_fault(m, f, a),
        typed_fault(m, f, type_of(m, a.ty), b),
    );
    let operands = earlier(typed_fault(m, f, IrType::Int(1), cond), values);
    earlier(number_type_fault(m, a.ty, place), operands)
}

pub(crate) fn freeze_fault(m: &Module, f: &Function, place: Place, a: &Placed) -> Option<Refusal>
    ensures { result ≡ freeze_fault m.now f.now place a.now }
{
    earlier(number_type_fault(m, a.ty, place), number_fault(m, f, a))
}

/// The first fault among the values of a phi.
fn entries_fault(m: &Module, f: &Function, ty: IrType, entries: &[PhiEntry]) -> Option<Refusal>
    ensures { result ≡ entries_fault m.now f.now ty entries.now }
{
    entries.iter().fold(
        None,
        |so_far, entry| earlier(so_far, typed_fault(m, f, ty, &entry.value)),
    )
}

/// Values of the phi's type.
pub(crate) fn phi_fault(
    m: &Module,
    f: &Function,
    place: Place,
    ty: u32,
    entries: &[PhiEntry],
) -> Option<Refusal>
    ensures { result ≡ phi_fault m.now f.now place ty entries.now }
{
    let values = entries_fault(m, f, type_of(m, ty), entries);
    earlier(number_type_fault(m, ty, place), values)
}

/// A count of values is an integer.
fn count_fault(m: &Module, f: &Function, count: &Option<Placed>) -> Option<Refusal>
    ensures { result ≡ count_fault m.now f.now count.now }
{
    match count {
        None => None,
        Some(count) => integer_fault(m, f, count),
    }
}

/// The type has a size.
pub(crate) fn sized_fault(m: &Module, ty: u32, place: Place) -> Option<Refusal>
    requires { HasLayouts m.now }
    ensures { result ≡ sized_fault m.now ty place }
{
    unless(m.has_size(ty), Fault::BadType, place)
}

/// A type with a size, and a count that is an integer.
pub(crate) fn alloca_fault(
    m: &Module,
    f: &Function,
    place: Place,
    ty: u32,
    count: &Option<Placed>,
) -> Option<Refusal>
    requires { HasLayouts m.now }
    ensures { result ≡ alloca_fault m.now f.now place ty count.now }
{
    earlier(sized_fault(m, ty, place), count_fault(m, f, count))
}

pub(crate) fn load_fault(
    m: &Module,
    f: &Function,
    place: Place,
    ty: u32,
    at: &Placed,
) -> Option<Refusal>
    ensures { result ≡ load_fault m.now f.now place ty at.now }
{
    earlier(
        number_type_fault(m, ty, place),
        typed_fault(m, f, IrType::Ptr, at),
    )
}

pub(crate) fn store_fault(
    m: &Module,
    f: &Function,
    place: Place,
    value: &Placed,
    at: &Placed,
) -> Option<Refusal>
    ensures { result ≡ store_fault m.now f.now place value.now at.now }
{
    let operands = earlier(
        number_fault(m, f, value),
        typed_fault(m, f, IrType::Ptr, at),
    );
    earlier(number_type_fault(m, value.ty, place), operands)
}

/// Atomic instructions are of integers of 8, 16, 32 or 64 bits; another number isn't supported.
fn atomic_fault(ty: IrType, place: Place) -> Option<Refusal>
    ensures { result ≡ atomic_fault ty place }
{
    match ty {
        IrType::Int(width) => {
            let holds = width == 8 || width == 16 || width == 32 || width == 64;
            unless(holds, Fault::Unsupported, place)
        }
        IrType::Ptr => unless(false, Fault::Unsupported, place),
        _ => unless(false, Fault::BadType, place),
    }
}

pub(crate) fn rmw_fault(
    m: &Module,
    f: &Function,
    place: Place,
    at: &Placed,
    value: &Placed,
) -> Option<Refusal>
    ensures { result ≡ rmw_fault m.now f.now place at.now value.now }
{
    let operands = earlier(
        typed_fault(m, f, IrType::Ptr, at),
        number_fault(m, f, value),
    );
    earlier(atomic_fault(type_of(m, value.ty), place), operands)
}

pub(crate) fn exchange_fault(
    m: &Module,
    f: &Function,
    place: Place,
    at: &Placed,
    expected: &Placed,
    new: &Placed,
) -> Option<Refusal>
    ensures { result ≡ exchange_fault m.now f.now place at.now expected.now new.now }
{
    let ty = type_of(m, expected.ty);
    let values = earlier(number_fault(m, f, expected), typed_fault(m, f, ty, new));
    let operands = earlier(typed_fault(m, f, IrType::Ptr, at), values);
    earlier(atomic_fault(ty, place), operands)
}

fn is_pair(ty: IrType) -> bool
    ensures { result ≡ is_pair ty }
{
    match ty {
        IrType::Pair(_) => true,
        _ => false,
    }
}

/// The first or second part of a pair.
pub(crate) fn part_fault(
    m: &Module,
    f: &Function,
    place: Place,
    pair: &Placed,
    part: Option<u8>,
) -> Option<Refusal>
    ensures { result ≡ part_fault m.now f.now place pair.now part }
{
    let holds = is_pair(type_of(m, pair.ty)) && part.is_some();
    let typed = is_typed(m, f, pair);
    earlier(
        unless(holds, Fault::BadType, place),
        unless(typed, Fault::BadType, pair.place),
    )
}

/// A function of type `void` returns nothing, and any other a value of its type.
pub(crate) fn return_fault(
    m: &Module,
    f: &Function,
    place: Place,
    value: &Option<Placed>,
) -> Option<Refusal>
    ensures { result ≡ return_fault m.now f.now place value.now }
{
    match value {
        None => {
            let holds = is_same(type_of(m, f.result), IrType::Void);
            unless(holds, Fault::BadType, place)
        }
        Some(value) => {
            let holds = is_same(type_of(m, value.ty), type_of(m, f.result));
            earlier(
                unless(holds, Fault::BadType, place),
                number_fault(m, f, value),
            )
        }
    }
}
