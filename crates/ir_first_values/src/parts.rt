ghost use Rattle.std.specs.Prelude.{◌≡◌, ◌*◌, ◌^◌, ◌<◌, ◌≤◌, length, slice_get, true, IfSome, Some};
ghost use Rattle.ir_core.specs.declared.types.IrType.TheVariants.{Struct};
ghost use Rattle.ir_core.specs.Layout.{field_types, field_offset_of, IsField};
ghost use Rattle.ir_core.specs.Resolved.{IsFitting};
ghost use Rattle.ir_first_values.specs.Offsets.{IsReady};
ghost use Rattle.ir_first_values.specs.Tables.{tables_of, type_at, is_fitting, counted_offset, counted_size, field_part, part_of, is_array_of, is_struct_of};

use crate::Initializers;
use ir_core::{IrType, field_types};

/// 2^40 bytes: the size of a type above which a module is refused.
const GREATEST_SIZE: u64 = 0x100_0000_0000;

/// A part of a type: the number of its own type, and how many bytes after the start it begins.
#[derive(Clone, Copy)]
pub(crate) struct TypePart {
    pub ty: u32,
    pub offset: u64,
}

/// Whether a type is an array of so many items.
pub(crate) fn is_array_of(count: usize, ty: Option<IrType>) -> bool
    ensures { result ≡ is_array_of count ty }
{
    match ty {
        Some(IrType::Array { count: items, .. }) => items == count as u64,
        _ => false,
    }
}

/// Whether a type is a struct of so many fields, packed or not.
pub(crate) fn is_struct_of(packed: bool, count: usize, ty: Option<IrType>) -> bool
    ensures { result ≡ is_struct_of packed count ty }
{
    match ty {
        Some(
            IrType::Struct {
                count: fields,
                packed: is_packed,
                ..
            },
        ) => is_packed == packed && fields as usize == count,
        _ => false,
    }
}

impl<'a> Initializers<'a> {
    /// An offset in a type, 0 if the type's size or the offset is above 2^40.
    fn counted_offset(&self, ty: u32, offset: u64) -> u64
        requires { IsReady self.now }
        ensures { result ≡ counted_offset (tables_of self.now) ty offset }
    {
        if self.is_fitting(ty) && offset <= GREATEST_SIZE {
            offset
        } else {
            0
        }
    }

    /// Where item number k of an array begins.
    fn item_offset(&self, ty: u32, item: u32, k: usize) -> u64
        requires { IsReady self.now }
        ensures { result ≡ counted_offset (tables_of self.now) ty (k * counted_size (tables_of self.now) item) }
    {
        let size = self.counted_size(item);
        self.counted_offset(ty, (k as u64).saturating_mul(size))
    }

    /// Where field number k of a struct begins, by the table of offsets, if it says so.
    fn table_offset(&self, ty: u32, k: u32) -> Option<u64>
        requires { IsReady self.now }
        ensures { IfSome result (λ o. is_fitting (tables_of self.now).types (tables_of self.now).fields ty ≡ true → IsField (tables_of self.now).fields (type_at (tables_of self.now) ty) k → o ≡ field_offset_of (tables_of self.now).types (tables_of self.now).fields ty k) }
    {
        match self.offsets.starts.get(ty as usize) {
            None => None,
            Some(start) => match start.checked_add(k as usize) {
                None => None,
                Some(place) => self.offsets.offsets.get(place).copied(),
            },
        }
    }

    /// Where field number k of a struct of at most 2^40 bytes begins.
    fn fitting_offset(&self, ty: u32, k: u32) -> u64
        requires ready { IsReady self.now }
        requires fits { IsFitting self.now.module.now ty }
        requires fitting { is_fitting (tables_of self.now).types (tables_of self.now).fields ty ≡ true }
        requires is_field { IsField (tables_of self.now).fields (type_at (tables_of self.now) ty) k }
        ensures { result ≡ field_offset_of (tables_of self.now).types (tables_of self.now).fields ty k }
    {
        match self.table_offset(ty, k) {
            Some(offset) => offset,
            None => self.module.field_offset(ty, k),
        }
    }

    /// Where field number k of a struct begins.
    fn field_offset(&self, ty: u32, k: u32) -> u64
        requires ready { IsReady self.now }
        requires is_field { IsField (tables_of self.now).fields (type_at (tables_of self.now) ty) k }
        ensures { result ≡ counted_offset (tables_of self.now) ty (field_offset_of (tables_of self.now).types (tables_of self.now).fields ty k) }
    {
        if self.is_fitting(ty) {
            let offset = self.fitting_offset(ty, k);
            self.counted_offset(ty, offset)
        } else {
            0
        }
    }

    /// Part number k of a type, counted from 0: an item of an array or a field of a struct.
    pub(crate) fn part_of(&self, ty: u32, k: usize) -> Option<TypePart>
        requires { IsReady self.now }
        ensures value { result ≡ part_of (tables_of self.now) ty k }
        ensures bound { IfSome result (λ part. part.offset ≤ 2 ^ 40) }
    {
        match self.type_at(ty) {
            Some(IrType::Array { item, .. }) => Some(TypePart {
                ty: item,
                offset: self.item_offset(ty, item, k),
            }),
            Some(IrType::Struct { first, count, .. }) => {
                let types = field_types(self.module.fields.as_slice(), first, count);
                if k < types.len() {
                    Some(TypePart {
                        ty: types[k],
                        offset: self.field_offset(ty, k as u32),
                    })
                } else {
                    None
                }
            }
            _ => None,
        }
    }
}
