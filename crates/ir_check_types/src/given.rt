ghost use Rattle.std.specs.Prelude.{◌≡◌};
ghost use Rattle.ir_core.specs.Operations.{is_value_type, pair_of, part_of, given_type};

use crate::operands::type_of;
use ir_core::{IrType, Module, Op};

pub(crate) fn is_value_type(ty: IrType) -> bool
    ensures { result ≡ is_value_type ty }
{
    match ty {
        IrType::Int(_) | IrType::Ptr | IrType::Pair(_) => true,
        _ => false,
    }
}

fn pair_of(ty: IrType) -> IrType
    ensures { result ≡ pair_of ty }
{
    match ty {
        IrType::Int(width) => IrType::Pair(width),
        _ => IrType::Void,
    }
}

fn part_of(part: Option<u8>, ty: IrType) -> IrType
    ensures { result ≡ part_of part ty }
{
    match (part, ty) {
        (Some(0), IrType::Pair(width)) => IrType::Int(width),
        (Some(_), IrType::Pair(_)) => IrType::Int(1),
        _ => IrType::Void,
    }
}

/// The type of the value that an operation gives, and `void` if it gives none.
pub(crate) fn given_type(m: &Module, op: &Op) -> IrType
    ensures { result ≡ given_type m.now op.now }
{
    match op {
        Op::Binary { a, .. } => type_of(m, a.ty),
        Op::Icmp { .. } => IrType::Int(1),
        Op::Cast { to, .. } => type_of(m, *to),
        Op::Select { a, .. } => type_of(m, a.ty),
        Op::Freeze { a } => type_of(m, a.ty),
        Op::Phi { ty, .. } => type_of(m, *ty),
        Op::Alloca { .. } | Op::Gep { .. } => IrType::Ptr,
        Op::Load { ty, .. } => type_of(m, *ty),
        Op::Rmw { value, .. } => type_of(m, value.ty),
        Op::CmpXchg { new, .. } => pair_of(type_of(m, new.ty)),
        Op::ExtractValue { of, part } => part_of(*part, type_of(m, of.ty)),
        Op::Call { result, .. } => type_of(m, *result),
        Op::CallLib { result, .. } => type_of(m, *result),
        _ => IrType::Void,
    }
}
