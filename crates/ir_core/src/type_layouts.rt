ghost use Rattle.std.specs.Prelude.{◌≡◌, ℕ, ◌+◌, ◌-◌, ◌*◌, ◌/◌, ◌%◌, ◌^◌, ◌≤◌, ◌<◌, min, max, false, List, [], ◌∷◌, map, take, drop, length};
ghost use Rattle.ir_core.specs.Layout.{size_cap, padding, int_store_size, int_align, int_layout, array_layout, field_align, field_start, with_field, fields_layout, rounded, struct_layout, layout_at, field_types, type_layout, capped};

use crate::{IrType, TypeLayout};

/// 2^40 + 1 bytes, which stands for every size above 2^40.
const SIZE_CAP: u64 = 0x100_0000_0001;

/// A layout with its size capped.
fn known(size: u64, align: u32) -> TypeLayout
    ensures { result ≡ capped (TypeLayout.Known size align) }
{
    TypeLayout::Known {
        size: size.min(SIZE_CAP),
        align,
    }
}

/// How many bytes lie between an offset and the next multiple of an alignment, which is 0 where nothing is asked for.
pub fn padding(at: u64, align: u32) -> u32
    ensures value { result ≡ padding at align }
{
    if align == 0 {
        return 0;
    }
    let past = (at % align as u64) as u32;
    (align - past) % align
}

/// The bytes of an integer of a width in bits.
pub fn int_store_size(width: u32) -> u64
    ensures { result ≡ int_store_size width }
{
    (width as u64 + 7) / 8
}

/// The alignment in bytes of an integer of a width in bits.
fn int_align(width: u32) -> u32
    ensures { result ≡ int_align width }
{
    if width <= 8 {
        1
    } else if width <= 16 {
        2
    } else if width <= 32 {
        4
    } else if width <= 64 {
        8
    } else {
        16
    }
}

/// The layout of an integer of a width in bits.
fn int_layout(width: u32) -> TypeLayout
    ensures { result ≡ capped (int_layout width) }
{
    let size = int_store_size(width);
    let align = int_align(width);
    known(size + padding(size, align) as u64, align)
}

/// The layout of an array of so many items.
fn array_layout(count: u64, item: TypeLayout) -> TypeLayout
    ensures { result ≡ capped (array_layout count item) }
{
    match item {
        TypeLayout::Known { size, align } => known(count.saturating_mul(size), align),
        TypeLayout::NoSize => TypeLayout::NoSize,
        TypeLayout::Loop => TypeLayout::Loop,
    }
}

/// What an alignment counts in a struct.
fn field_align(packed: bool, align: u32) -> u32
    ensures { result ≡ field_align packed align }
{
    if packed { 1 } else { align }
}

/// Where a field begins in a struct, behind what ends at an offset.
pub fn field_start(packed: bool, at: u64, align: u32) -> u64
    ensures { result ≡ min (field_start packed at align) u64.MAX }
{
    at.saturating_add(padding(at, field_align(packed, align)) as u64)
}

/// One more field behind those of a struct so far.
pub fn with_field(packed: bool, so_far: TypeLayout, field: TypeLayout) -> TypeLayout
    ensures { result ≡ capped (with_field packed so_far field) }
{
    match so_far {
        TypeLayout::Known {
            size: at,
            align: most,
        } => match field {
            TypeLayout::Known { size, align } => {
                let start = field_start(packed, at, align);
                known(
                    start.saturating_add(size),
                    most.max(field_align(packed, align)),
                )
            }
            TypeLayout::NoSize => TypeLayout::NoSize,
            TypeLayout::Loop => TypeLayout::Loop,
        },
        TypeLayout::NoSize => match field {
            TypeLayout::Loop => TypeLayout::Loop,
            _ => TypeLayout::NoSize,
        },
        TypeLayout::Loop => TypeLayout::Loop,
    }
}

/// The layout of a struct's fields, rounded up to their alignment.
fn rounded(so_far: TypeLayout) -> TypeLayout
    ensures { result ≡ capped (rounded so_far) }
{
    match so_far {
        TypeLayout::Known { size, align } => {
            known(size.saturating_add(padding(size, align) as u64), align)
        }
        TypeLayout::NoSize => TypeLayout::NoSize,
        TypeLayout::Loop => TypeLayout::Loop,
    }
}

/// The layout at a number in a list.
pub fn layout_at(layouts: &[TypeLayout], n: usize) -> TypeLayout
    ensures { result ≡ layout_at layouts.now n }
{
    match layouts.get(n) {
        Some(layout) => *layout,
        None => TypeLayout::Loop,
    }
}

/// The fields of a struct one after the other, by the layouts of their types.
pub fn fields_layout(packed: bool, layouts: &[TypeLayout], types: &[u32]) -> TypeLayout
    ensures { result ≡ capped (fields_layout packed (map (layout_at layouts.now) types.now)) }
{
    let mut so_far = TypeLayout::Known { size: 0, align: 1 };
    for ty in types {
        so_far = with_field(packed, so_far, layout_at(layouts, *ty as usize));
    }
    so_far
}

/// The numbers of a struct's field types.
pub fn field_types(fields: &[u32], first: u32, count: u32) -> &[u32]
    ensures { result.now ≡ field_types fields.now first count }
{
    let from = fields.len().min(first as usize);
    let rest = &fields[from..];
    let to = rest.len().min(count as usize);
    &rest[..to]
}

/// The layout of a type, by those of the types that it holds.
pub fn type_layout(fields: &[u32], layouts: &[TypeLayout], ty: IrType) -> TypeLayout
    ensures { result ≡ capped (type_layout fields.now layouts.now ty) }
{
    match ty {
        IrType::Void | IrType::Opaque => TypeLayout::NoSize,
        IrType::Int(width) => int_layout(width),
        IrType::Ptr => TypeLayout::Known { size: 8, align: 8 },
        IrType::Array { count, item } => array_layout(count, layout_at(layouts, item as usize)),
        IrType::Struct {
            first,
            count,
            packed,
        } => rounded(fields_layout(packed, layouts, field_types(fields, first, count))),
        IrType::Pair(width) => pair_layout(width),
    }
}

/// The layout of the pair of an integer of a width in bits and an `i1`.
fn pair_layout(width: u32) -> TypeLayout
    ensures { result ≡ capped (struct_layout false (int_layout width ∷ int_layout 1 ∷ [])) }
{
    let first = with_field(
        false,
        TypeLayout::Known { size: 0, align: 1 },
        int_layout(width),
    );
    rounded(with_field(false, first, int_layout(1)))
}
