ghost use Rattle.std.specs.Prelude.{◌≡◌, ℕ, ◌+◌, ◌*◌, ◌<◌, ◌≤◌, ◌^◌, length, map, take, IfSome, unwrap_or};
ghost use Rattle.ir_core.specs.Layout.{padding, field_start, with_field, fields_layout, layout_at, layout_size, layout_align, field_types, offset_in};
ghost use Rattle.ir_core.specs.NumberTypes.{field_type, field_offset};
ghost use Rattle.ir_core.specs.declared.types.TypeLayout.{TypeLayout};
ghost use Rattle.tag_insert.specs.FieldEnds.{IsEnd};

use crate::types::layout_at;
use ir_core::{Module, TypeLayout, field_types};

/// How many bytes lie between an offset and the next multiple of an alignment.
fn padding(at: u128, align: u32) -> u32
    ensures { result ≡ padding at align }
{
    if align == 0 {
        return 0;
    }
    let past = (at % align as u128) as u32;
    (align - past) % align
}

/// Where a field begins, by the end of the field before it.
fn field_start(packed: bool, at: u128, align: u32) -> u128
    requires { at < 2 ^ 100 }
    ensures start { result ≡ field_start packed at align }
    ensures near { result ≤ at + 2 ^ 32 }
{
    if packed {
        at
    } else {
        at + padding(at, align) as u128
    }
}

/// Where the fields of a struct so far end with one more.
fn end_with(packed: bool, end: Option<u128>, field: TypeLayout) -> Option<u128>
    requires { IfSome end (λ at. at < 2 ^ 100) }
    ensures end { (so_far : TypeLayout) → IsEnd so_far end → IsEnd (with_field packed so_far field) result }
    ensures near { IfSome result (λ at. at ≤ unwrap_or end 0 + 2 ^ 65) }
{
    match (end, field) {
        (Some(at), TypeLayout::Known { size, align }) => {
            Some(field_start(packed, at, align) + size as u128)
        }
        _ => None,
    }
}

/// Where fields of these types end, or none if one of them has no size.
fn fields_end(m: &Module, packed: bool, types: &[u32]) -> Option<u128>
    requires { length types.now < 2 ^ 32 }
    ensures end { IsEnd (fields_layout packed (map (layout_at m.now.layouts) types.now)) result }
    ensures near { IfSome result (λ at. at < 2 ^ 100) }
{
    let mut end = Some(0u128);
    for ty in types {
        end = end_with(packed, end, layout_at(m, *ty));
    }
    end
}

/// The type of a field of a struct whose fields begin at `first` in the module's list.
pub fn field_type(m: &Module, first: u32, k: u128) -> u32
    ensures { result ≡ field_type m.now first k }
{
    let at = first as u128 + k.min(u64::MAX as u128);
    if at < m.fields.len() as u128 {
        m.fields.as_slice()[at as usize]
    } else {
        0
    }
}

/// The alignment of a field of a struct with fields of these types.
fn field_align(m: &Module, types: &[u32], k: u128) -> u32
    ensures { result ≡ layout_align (layout_at (map (layout_at m.now.layouts) types.now) k) }
{
    if k >= types.len() as u128 {
        return 1;
    }
    match layout_at(m, types[k as usize]) {
        TypeLayout::Known { align, .. } => align,
        _ => 1,
    }
}

/// The first `k` of a struct's fields, by the numbers of their types.
fn fields_before(types: &[u32], k: u128) -> &[u32]
    ensures { result.now ≡ take k types.now }
{
    let len = types.len();
    if k < len as u128 {
        &types[..k as usize]
    } else {
        types
    }
}

/// The size of fields that end here, 0 if one of them has no size.
fn size_by(end: Option<u128>) -> u128
    ensures { (so_far : TypeLayout) → IsEnd so_far end → result ≡ layout_size so_far }
{
    match end {
        Some(at) => at,
        None => 0,
    }
}

/// The byte at which a field of a struct begins.
pub fn field_offset(m: &Module, first: u32, count: u32, packed: bool, k: u128) -> u128
    ensures { result ≡ field_offset m.now first count packed k }
{
    let types = field_types(m.fields.as_slice(), first, count);
    let end = fields_end(m, packed, fields_before(types, k));
    field_start(packed, size_by(end), field_align(m, types, k))
}
