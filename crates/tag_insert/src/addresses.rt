ghost use Rattle.std.specs.Prelude.{◌≡◌, ℕ, ◌<◌, ◌^◌, Bool, All, IfOk, IfSome, None, Some, Option, List, drop};
ghost use Rattle.ir_core.specs.IndexSteps.{AddressStep, Offset, index_steps, inner_steps, scaled_step, field_step};
ghost use Rattle.ir_core.specs.NumberTypes.{type_of, field_type, field_offset};
ghost use Rattle.mi_code.specs.AddressCode.{step_code, steps_code, indices_code};
ghost use Rattle.tag_insert.specs.InnerSteps.{inner_step, IsInnerStep, IsWalked};
ghost use Rattle.tag_insert.specs.SmallRegisters.{IsSmall};
ghost use Rattle.tag_insert.specs.SmallSteps.{HasSmallSteps, IsSmallStep};

use crate::fields::{field_offset, field_type};
use crate::operands::operand_of;
use crate::types::{alloc_size, bits_at, constant_number, type_of};
use hw_base::OutOfMemory;
use ir_core::{IrType, Module, Placed};
use mi_code::{IndexStep, IndexStepList};
use std::alloc::Global;

/// An index that counts values of a type.
fn scaled_step(m: &Module, index: &Placed, ty: u32) -> IndexStep
    requires { IsSmall index.now }
    ensures { result ≡ step_code m.now (scaled_step m.now index.now ty) }
{
    IndexStep::Scaled {
        value: operand_of(index),
        width: bits_at(m, index.ty),
        size: alloc_size(m, ty),
    }
}

/// An index that is the number of a field, or none if the field begins too far from the start.
fn field_step(m: &Module, first: u32, count: u32, packed: bool, index: &Placed) -> Option<IndexStep>
    ensures found { IfSome result (λ step. step ≡ step_code m.now (field_step m.now first count packed index.now)) }
    ensures none { result ≡ None → IsSmallStep (field_step m.now first count packed index.now) → ⊥ }
{
    let at = field_offset(m, first, count, packed, constant_number(index.operand));
    if at < 0x1_0000_0000_0000_0000 {
        Some(IndexStep::Offset(at as u64))
    } else {
        None
    }
}

/// The step of an index into a type, and the type it leads to; none for a type without parts.
fn inner_step(m: &Module, ty: IrType, index: &Placed) -> Option<(IndexStep, u32)>
    requires { IsSmall index.now }
    ensures { IsInnerStep m.now (inner_step m.now ty index.now) result }
{
    match ty {
        IrType::Array { item, .. } => Some((scaled_step(m, index, item), item)),
        IrType::Struct {
            first,
            count,
            packed,
        } => match field_step(m, first, count, packed, index) {
            Some(step) => Some((step, field_type(m, first, constant_number(index.operand)))),
            None => None,
        },
        _ => None,
    }
}

/// The first step and those of further indices, or none if one of them goes into a type without parts.
fn inner_code(
    alloc: Global,
    m: &Module,
    first: IndexStep,
    ty: u32,
    indices: &[Placed],
) -> Result<Option<IndexStepList>, OutOfMemory>
    requires small { All IsSmall indices.now }
    requires near { (more : List AddressStep) → inner_steps m.now (type_of m.now ty) indices.now ≡ Some more → All IsSmallStep more }
    ensures { IfOk result (λ found. IsWalked m.now first (inner_steps m.now (type_of m.now ty) indices.now) found) }
{
    let mut steps = IndexStepList::new(alloc);
    steps.push(first)?;
    let mut at = ty;
    for index in indices {
        match inner_step(m, type_of(m, at), index) {
            Some((step, inner)) => {
                steps.push(step)?;
                at = inner;
            }
            None => return Ok(None),
        }
    }
    Ok(Some(steps))
}

/// The steps of an address by the number of the source type and the indices.
pub fn indices_code(
    alloc: Global,
    m: &Module,
    ty: u32,
    indices: &[Placed],
) -> Result<IndexStepList, OutOfMemory>
    requires small { All IsSmall indices.now }
    requires near { HasSmallSteps m.now ty indices.now }
    ensures { IfOk result (λ steps. steps ≡ indices_code m.now ty indices.now) }
{
    if indices.len() == 0 {
        return Ok(IndexStepList::new(alloc));
    }
    let first = scaled_step(m, &indices[0], ty);
    match inner_code(alloc, m, first, ty, &indices[1..])? {
        Some(steps) => Ok(steps),
        None => Ok(IndexStepList::new(alloc)),
    }
}
