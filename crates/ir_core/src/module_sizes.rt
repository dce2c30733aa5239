ghost use Rattle.std.specs.Prelude.{◌≡◌, ℕ, ◌≤◌, ◌<◌, ◌↔◌, min, map, take, length, slice_get, slice_index, IsTrue, IfOk};
ghost use Rattle.ir_core.specs.Layout.{layout_size, layout_align, layout_at, field_start, fields_layout, capped, exact_layouts, has_size_of, alloc_size_of, store_size_of, field_offset_of, IsField, AreFieldOffsets};
ghost use Rattle.ir_core.specs.Starts.{AreStarts};
ghost use Rattle.ir_core.specs.Resolved.{HasLayouts, IsFitting};

use crate::type_layouts::{
    field_start, field_types, fields_layout, int_store_size, layout_at, with_field,
};
use crate::{IrType, Module, TypeLayout};
use hw_base::OutOfMemory;
use std::alloc::Global;

/// The bytes that a layout says, 0 where it says none.
fn layout_size(layout: TypeLayout) -> u64
    ensures { result ≡ layout_size layout }
{
    match layout {
        TypeLayout::Known { size, .. } => size,
        _ => 0,
    }
}

/// The alignment that a layout says, 1 where it says none.
fn layout_align(layout: TypeLayout) -> u32
    ensures { result ≡ layout_align layout }
{
    match layout {
        TypeLayout::Known { align, .. } => align,
        _ => 1,
    }
}

/// Where field number k of a struct begins, by the layouts and the numbers of its fields' types.
fn offset_in(packed: bool, layouts: &[TypeLayout], types: &[u32], k: usize) -> u64
    requires { k < length types.now }
    ensures { result ≡ min (field_start packed (layout_size (capped (fields_layout packed (map (layout_at layouts.now) (take k types.now))))) (layout_align (layout_at layouts.now (slice_index types.now k)))) u64.MAX }
{
    let before = layout_size(fields_layout(packed, layouts, &types[..k]));
    let align = layout_align(layout_at(layouts, types[k] as usize));
    field_start(packed, before, align)
}

/// Where a field begins behind those of a struct so far.
fn start_behind(packed: bool, so_far: TypeLayout, field: TypeLayout) -> u64
    ensures { result ≡ min (field_start packed (layout_size so_far) (layout_align field)) u64.MAX }
{
    field_start(packed, layout_size(so_far), layout_align(field))
}

/// Where each field of a struct begins, by the layouts and the numbers of its fields' types.
fn offsets_in(
    alloc: Global,
    packed: bool,
    layouts: &[TypeLayout],
    types: &[u32],
) -> Result<Vec<u64>, OutOfMemory>
    ensures { IfOk result (λ starts. AreStarts packed layouts.now types.now (length types.now) starts.items) }
{
    let mut starts = Vec::new(alloc);
    let mut so_far = TypeLayout::Known { size: 0, align: 1 };
    for ty in types {
        let field = layout_at(layouts, *ty as usize);
        starts.push(start_behind(packed, so_far, field))?;
        so_far = with_field(packed, so_far, field);
    }
    Ok(starts)
}

impl Module {
    /// The layout of a type, by its number.
    fn layout(&self, ty: u32) -> TypeLayout
        requires { HasLayouts self.now }
        ensures { result ≡ capped (layout_at (exact_layouts self.now.types self.now.fields) ty) }
    {
        layout_at(self.layouts.as_slice(), ty as usize)
    }

    /// Whether a type has a size: it is and holds no `void` and no opaque type, and it doesn't hold itself.
    pub fn has_size(&self, ty: u32) -> bool
        requires { HasLayouts self.now }
        ensures { result ≡ has_size_of self.now.types self.now.fields ty }
    {
        match self.layout(ty) {
            TypeLayout::Known { .. } => true,
            _ => false,
        }
    }

    /// Whether a type has a size of at most 2^40 bytes.
    pub fn fits(&self, ty: u32) -> bool
        requires { HasLayouts self.now }
        ensures { IsTrue result ↔ IsFitting self.now ty }
    {
        match self.layout(ty) {
            TypeLayout::Known { size, .. } => size <= 0x100_0000_0000,
            _ => false,
        }
    }

    /// The alloc size in bytes of a type with a size of at most 2^40 bytes: the distance of two such values in an array
    /// (LLVM Language Reference, "Data Layout").
    pub fn alloc_size(&self, ty: u32) -> u64
        requires layouts { HasLayouts self.now }
        requires fits { IsFitting self.now ty }
        ensures { result ≡ alloc_size_of self.now.types self.now.fields ty }
    {
        layout_size(self.layout(ty))
    }

    /// The store size in bytes of a type with a size of at most 2^40 bytes: what a load or a store of it touches.
    pub fn store_size(&self, ty: u32) -> u64
        requires layouts { HasLayouts self.now }
        requires fits { IsFitting self.now ty }
        ensures { result ≡ store_size_of self.now.types self.now.fields ty }
    {
        match self.types.get(ty as u64) {
            Some(IrType::Int(width)) => int_store_size(width),
            _ => self.alloc_size(ty),
        }
    }

    /// How many bytes behind the start of a struct its field begins, by the field's number from 0. The type is a struct
    /// with a size of at most 2^40 bytes, and has such a field.
    pub fn field_offset(&self, ty: u32, field: u32) -> u64
        requires layouts { HasLayouts self.now }
        requires fits { IsFitting self.now ty }
        requires is_field { IsField self.now.fields (slice_get self.now.types ty) field }
        ensures { result ≡ field_offset_of self.now.types self.now.fields ty field }
    {
        match self.types.get(ty as u64) {
            Some(
                IrType::Struct {
                    first,
                    count,
                    packed,
                },
            ) => {
                let types = field_types(self.fields.as_slice(), first, count);
                offset_in(packed, self.layouts.as_slice(), types, field as usize)
            }
            _ => 0,
        }
    }

    /// How many bytes behind the start of a struct each of its fields begins, in order. The type has a size of at most 2^40
    /// bytes; the list is empty where it is no struct. The only error is want of memory. The time is in proportion to the
    /// fields.
    pub fn field_offsets(&self, alloc: Global, ty: u32) -> Result<Vec<u64>, OutOfMemory>
        requires layouts { HasLayouts self.now }
        requires fits { IsFitting self.now ty }
        ensures { IfOk result (λ offsets. AreFieldOffsets self.now.types self.now.fields ty offsets.items) }
    {
        match self.types.get(ty as u64) {
            Some(
                IrType::Struct {
                    first,
                    count,
                    packed,
                },
            ) => {
                let types = field_types(self.fields.as_slice(), first, count);
                offsets_in(alloc, packed, self.layouts.as_slice(), types)
            }
            _ => Ok(Vec::new(alloc)),
        }
    }
}
