ghost use Rattle.std.specs.Prelude.{◌≡◌};
ghost use Rattle.ir_core.specs.Layout.{layout_at, layout_size};
ghost use Rattle.ir_core.specs.NumberTypes.{type_of, bits_of, access_size, alloc_size, constant_number};
ghost use Rattle.mi_code.specs.Widths.{width_of_type, width_of, bits_at};

use ir_core::{IrType, Module, Operand, TypeLayout};
use mi_code::Width;

/// The type with a number, or `void`.
pub fn type_of(m: &Module, ty: u32) -> IrType
    ensures { result ≡ type_of m.now ty }
{
    match m.types.get(ty as u64) {
        Some(found) => found,
        None => IrType::Void,
    }
}

/// The bits of a type's numbers.
pub fn bits_of(ty: IrType) -> u32
    ensures { result ≡ bits_of ty }
{
    match ty {
        IrType::Int(width) => width,
        IrType::Ptr => 64,
        _ => 0,
    }
}

/// The bytes that a load or store of a type touches.
pub fn access_size(ty: IrType) -> u32
    ensures { result ≡ access_size ty }
{
    bits_of(ty).div_ceil(8)
}

/// The bits of the type with a number.
pub fn bits_at(m: &Module, ty: u32) -> u32
    ensures { result ≡ bits_at m.now ty }
{
    bits_of(type_of(m, ty))
}

/// How wide the numbers of the type with a number are.
pub fn width_of(m: &Module, ty: u32) -> Width
    ensures { result ≡ width_of m.now ty }
{
    match type_of(m, ty) {
        IrType::Ptr => Width::Ptr,
        other => Width::Int(bits_of(other)),
    }
}

/// The layout of a type that the module keeps.
pub fn layout_at(m: &Module, ty: u32) -> TypeLayout
    ensures { result ≡ layout_at m.now.layouts ty }
{
    match m.layouts.get(ty as u64) {
        Some(layout) => layout,
        None => TypeLayout::Loop,
    }
}

/// The bytes that a layout says, 0 if it says none.
pub fn layout_size(layout: TypeLayout) -> u64
    ensures { result ≡ layout_size layout }
{
    match layout {
        TypeLayout::Known { size, .. } => size,
        _ => 0,
    }
}

/// The bytes from one item of a type to the next, by the layouts that the module keeps.
pub fn alloc_size(m: &Module, ty: u32) -> u64
    ensures { result ≡ alloc_size m.now ty }
{
    layout_size(layout_at(m, ty))
}

/// The number that a constant operand is.
pub fn constant_number(operand: Operand) -> u128
    ensures { result ≡ constant_number operand }
{
    match operand {
        Operand::Int(n) => n,
        _ => 0,
    }
}
