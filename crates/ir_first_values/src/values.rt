ghost use Rattle.std.specs.Prelude.{◌≡◌, ◌+◌, ◌*◌, ◌/◌, ◌^◌, ◌≤◌, take, drop, slice_get, length, IfOk, IfSome, Some, None, ◌<◌};
ghost use Rattle.ir_first_values.specs.Offsets.{IsReady};
ghost use Rattle.ir_text.specs.TokenText.{string_bytes_of};
ghost use Rattle.ir_first_values.specs.Tables.{tables_of, type_at, integer_in, is_array_of, is_struct_of, part_of};
ghost use Rattle.ir_first_values.specs.Addresses.{address_of};
ghost use Rattle.ir_first_values.specs.FirstValues.{piece, number_piece, integer_value, bool_in, operand_of, address_value, zero_value, is_i8, is_i8_array_of, little_endian, bytes_piece, string_pieces, bytes_value, string_of, flat_value, element_by, elements_value, elements_of, nested_value, first_value};
ghost use Rattle.ir_first_values.specs.Answers.{Puts};

use crate::Initializers;
use crate::addresses::Address;
use crate::integers::{integer_in, store_size};
use crate::no_value::NoValue;
use crate::parts::{TypePart, is_array_of, is_struct_of};
use hw_base::{ByteList, OutOfMemory};
use ir_core::{IrType, Operand, Part, PartList, Token};
use ir_grammar::{SpelledConstant, SpelledInteger, TypedConstant};
use ir_text::string_bytes;
use std::alloc::Global;

/// Puts one piece after the others.
fn put(parts: &mut PartList, at: u64, size: u32, value: Operand) -> Result<(), NoValue>
    ensures { Puts result parts.old parts.new (Some (piece at size value)) }
{
    parts.push(Part { at, size, value })?;
    Ok(())
}

/// Puts a number of so many bits.
fn put_number(parts: &mut PartList, at: u64, width: u32, value: Option<u128>) -> Result<(), NoValue>
    ensures { Puts result parts.old parts.new (number_piece at width value) }
{
    match value {
        Some(value) => put(parts, at, store_size(width), Operand::Int(value)),
        None => Err(NoValue::RuleBroken),
    }
}

/// `true` and `false` in so many bits.
pub(crate) fn bool_in(value: bool, width: u32) -> Option<u128>
    ensures { result ≡ bool_in value width }
{
    if width == 1 {
        Some(if value { 1 } else { 0 })
    } else {
        None
    }
}

/// An address as an operand.
pub(crate) fn operand_of(address: Address) -> Operand
    ensures { result ≡ operand_of address.variable address.offset }
{
    match address.variable {
        Some(global) => Operand::Global {
            global,
            off: address.offset,
        },
        None => {
            if address.offset == 0 {
                Operand::Null
            } else {
                Operand::Int(address.offset as u128)
            }
        }
    }
}

/// Puts an address as a value of a type.
fn put_address(
    parts: &mut PartList,
    at: u64,
    ty: Option<IrType>,
    address: Option<Address>,
) -> Result<(), NoValue>
    ensures { Puts result parts.old parts.new (address_value at ty address) }
{
    match ty {
        Some(IrType::Ptr) => match address {
            Some(address) => put(parts, at, 8, operand_of(address)),
            None => Err(NoValue::RuleBroken),
        },
        _ => Err(NoValue::RuleBroken),
    }
}

/// Whether a type is `i8`.
fn is_i8(ty: Option<IrType>) -> bool
    ensures { result ≡ is_i8 ty }
{
    match ty {
        Some(IrType::Int(width)) => width == 8,
        _ => false,
    }
}

/// The number that at most 16 bytes make, the lowest first.
fn little_endian(bytes: &[u8]) -> u128
    requires { length bytes.now ≤ 16 }
    ensures value { result ≡ little_endian bytes.now }
    ensures below { result < 2 ^ (8 * length bytes.now) }
{
    match bytes {
        [] => 0,
        [lowest, rest @ ..] => {
            let lowest = *lowest as u128;
            let above = little_endian(rest);
            lowest + 256 * above
        }
    }
}

/// Puts at most 16 bytes as one piece, if there are any.
fn put_piece(parts: &mut PartList, at: u64, bytes: &[u8]) -> Result<(), NoValue>
    requires { length bytes.now ≤ 16 }
    ensures { Puts result parts.old parts.new (Some (bytes_piece at bytes.now)) }
{
    match bytes {
        [] => Ok(()),
        [_, ..] => {
            let number = little_endian(bytes);
            put(parts, at, bytes.len() as u32, Operand::Int(number))
        }
    }
}

/// The first 16 bytes.
fn first_16(bytes: &[u8]) -> &[u8]
    requires { 16 ≤ length bytes.now }
    ensures { result.now ≡ take 16 bytes.now }
{
    &bytes[..16]
}

/// The bytes after the first 16.
fn after_16(bytes: &[u8]) -> &[u8]
    requires { 16 ≤ length bytes.now }
    ensures { result.now ≡ drop 16 bytes.now }
{
    &bytes[16..]
}

/// Puts bytes in pieces of 16, and one of what is left.
fn put_bytes(parts: &mut PartList, at: u64, bytes: &[u8]) -> Result<(), NoValue>
    requires { at ≤ 2 ^ 63 }
    ensures { Puts result parts.old parts.new (Some (string_pieces (length bytes.now / 16) at bytes.now)) }
{
    let mut place = at;
    let mut rest = bytes;
    while rest.len() >= 16 {
        put_piece(parts, place, first_16(rest))?;
        place += 16;
        rest = after_16(rest);
    }
    put_piece(parts, place, rest)
}

impl<'a> Initializers<'a> {
    /// Puts an integer as a value of a type.
    fn put_integer(
        &self,
        parts: &mut PartList,
        at: u64,
        ty: u32,
        integer: SpelledInteger,
    ) -> Result<(), NoValue>
        ensures { Puts result parts.old parts.new (integer_value at (type_at (tables_of self.now) ty) (λ width. integer_in width integer)) }
    {
        match self.type_at(ty) {
            Some(IrType::Int(width)) => put_number(parts, at, width, integer_in(width, integer)),
            _ => Err(NoValue::RuleBroken),
        }
    }

    /// Puts `true` or `false` as a value of a type.
    fn put_bool(&self, parts: &mut PartList, at: u64, ty: u32, value: bool) -> Result<(), NoValue>
        ensures { Puts result parts.old parts.new (integer_value at (type_at (tables_of self.now) ty) (bool_in value)) }
    {
        match self.type_at(ty) {
            Some(IrType::Int(width)) => put_number(parts, at, width, bool_in(value, width)),
            _ => Err(NoValue::RuleBroken),
        }
    }

    /// Whether a type is an array of so many `i8`.
    fn is_i8_array_of(&self, count: usize, ty: u32) -> bool
        ensures { result ≡ is_i8_array_of (tables_of self.now) count (type_at (tables_of self.now) ty) }
    {
        match self.type_at(ty) {
            Some(IrType::Array { count: items, item }) => {
                items == count as u64 && is_i8(self.type_at(item))
            }
            _ => false,
        }
    }

    /// The bytes that a byte string stands for.
    fn string_of(&self, alloc: Global, token: Token) -> Result<ByteList, OutOfMemory>
        ensures { IfOk result (λ bytes. bytes ≡ string_of (tables_of self.now) token) }
    {
        let text = self.text_of(token);
        let from = text.len().min(1);
        string_bytes(alloc, &text[from..])
    }

    /// Puts the bytes of a byte string as a value of a type.
    fn put_string(
        &self,
        alloc: Global,
        parts: &mut PartList,
        at: u64,
        ty: u32,
        token: Token,
    ) -> Result<(), NoValue>
        requires layouts { IsReady self.now }
        requires room { at ≤ 2 ^ 63 }
        ensures { Puts result parts.old parts.new (bytes_value (tables_of self.now) ty at (string_of (tables_of self.now) token)) }
    {
        let bytes = self.string_of(alloc, token)?;
        if self.is_i8_array_of(bytes.as_slice().len(), ty) {
            put_bytes(parts, at, bytes.as_slice())
        } else {
            Err(NoValue::RuleBroken)
        }
    }

    /// Puts nothing, for bytes 0 of a type with a size.
    fn put_zero(&self, parts: &mut PartList, ty: u32) -> Result<(), NoValue>
        requires { IsReady self.now }
        ensures { Puts result parts.old parts.new (zero_value (tables_of self.now) ty) }
    {
        if self.is_sized(ty) {
            Ok(())
        } else {
            Err(NoValue::RuleBroken)
        }
    }

    /// Puts a constant without elements as a value of a type.
    fn put_flat(
        &self,
        alloc: Global,
        parts: &mut PartList,
        levels: u32,
        at: u64,
        ty: u32,
        number: usize,
        constant: SpelledConstant,
    ) -> Result<(), NoValue>
        requires layouts { IsReady self.now }
        requires room { at ≤ 2 ^ 63 }
        ensures { Puts result parts.old parts.new (flat_value (tables_of self.now) levels ty number at constant) }
    {
        match constant {
            SpelledConstant::Integer(integer) => self.put_integer(parts, at, ty, integer),
            SpelledConstant::Bool(value) => self.put_bool(parts, at, ty, value),
            SpelledConstant::Zero => self.put_zero(parts, ty),
            SpelledConstant::Bytes(token) => self.put_string(alloc, parts, at, ty, token),
            SpelledConstant::Null | SpelledConstant::Global(_) | SpelledConstant::Address { .. } =>
                put_address(parts, at, self.type_at(ty), self.address_of(levels, number)),
            SpelledConstant::Local(_)
            | SpelledConstant::Array { .. }
            | SpelledConstant::Struct { .. } => Err(NoValue::RuleBroken),
        }
    }

    /// Puts an element as a value of a part of a type.
    #[cycle(values)]
    fn put_element(
        &self,
        alloc: Global,
        parts: &mut PartList,
        levels: u32,
        at: u64,
        element: TypedConstant,
        part: Option<TypePart>,
    ) -> Result<(), NoValue>
        requires layouts { IsReady self.now }
        requires room { at + (levels + 1) * 2 ^ 40 ≤ 2 ^ 63 }
        requires bound { IfSome part (λ part. part.offset ≤ 2 ^ 40) }
        ensures { Puts result parts.old parts.new (element_by (tables_of self.now) (first_value levels (tables_of self.now)) at element part) }
    {
        match part {
            Some(part) => {
                if self.is_spelled(part.ty, element.ty) {
                    let start = at + part.offset;
                    self.put_value(alloc, parts, levels, start, part.ty, element.value)
                } else {
                    Err(NoValue::RuleBroken)
                }
            }
            None => Err(NoValue::RuleBroken),
        }
    }

    /// Puts elements, each as a value of its part of a type.
    #[cycle(values)]
    fn put_elements(
        &self,
        alloc: Global,
        parts: &mut PartList,
        levels: u32,
        at: u64,
        ty: u32,
        elements: &[TypedConstant],
    ) -> Result<(), NoValue>
        requires layouts { IsReady self.now }
        requires room { at + (levels + 1) * 2 ^ 40 ≤ 2 ^ 63 }
        ensures { Puts result parts.old parts.new (elements_value (tables_of self.now) (first_value levels (tables_of self.now)) ty at 0 elements.now) }
    {
        for (k, element) in elements.iter().enumerate() {
            let part = self.part_of(ty, k);
            match self.put_element(alloc, parts, levels, at, *element, part) {
                Ok(()) => {}
                Err(why) => return Err(why),
            }
        }
        Ok(())
    }

    /// Puts the elements of an array or struct, if the type is one of as many.
    #[cycle(values)]
    fn put_elements_of(
        &self,
        alloc: Global,
        parts: &mut PartList,
        levels: u32,
        at: u64,
        ty: u32,
        fits: bool,
        elements: &[TypedConstant],
    ) -> Result<(), NoValue>
        requires layouts { IsReady self.now }
        requires room { at + (levels + 1) * 2 ^ 40 ≤ 2 ^ 63 }
        ensures { Puts result parts.old parts.new (elements_of (tables_of self.now) (first_value levels (tables_of self.now)) ty at fits elements.now) }
    {
        if fits {
            self.put_elements(alloc, parts, levels, at, ty, elements)
        } else {
            Err(NoValue::RuleBroken)
        }
    }

    /// Puts a constant, whose elements are inside its brackets, as a value of a type.
    #[cycle(values)]
    fn put_nested(
        &self,
        alloc: Global,
        parts: &mut PartList,
        levels: u32,
        at: u64,
        ty: u32,
        number: usize,
        constant: SpelledConstant,
    ) -> Result<(), NoValue>
        requires layouts { IsReady self.now }
        requires room { at + (levels + 1) * 2 ^ 40 ≤ 2 ^ 63 }
        requires levels { levels + 1 < 2 ^ 32 }
        ensures { Puts result parts.old parts.new (nested_value (tables_of self.now) (first_value levels (tables_of self.now)) (levels + 1) ty number at constant) }
    {
        match constant {
            SpelledConstant::Array { first, count } => {
                let elements = self.elements(first, count);
                let fits = is_array_of(elements.len(), self.type_at(ty));
                self.put_elements_of(alloc, parts, levels, at, ty, fits, elements)
            }
            SpelledConstant::Struct {
                first,
                count,
                packed,
            } => {
                let elements = self.elements(first, count);
                let fits = is_struct_of(packed, elements.len(), self.type_at(ty));
                self.put_elements_of(alloc, parts, levels, at, ty, fits, elements)
            }
            _ => self.put_flat(alloc, parts, levels + 1, at, ty, number, constant),
        }
    }

    /// Puts a constant as a value of a type, from byte `at` on, with so many brackets within one another at most. After an
    /// `Err` the pieces mean nothing.
    #[cycle(values)]
    pub(crate) fn put_value(
        &self,
        alloc: Global,
        parts: &mut PartList,
        levels: u32,
        at: u64,
        ty: u32,
        number: usize,
    ) -> Result<(), NoValue>
        requires layouts { IsReady self.now }
        requires room { at + levels * 2 ^ 40 ≤ 2 ^ 63 }
        ensures { Puts result parts.old parts.new (first_value levels (tables_of self.now) ty number at) }
    {
        match self.constant_at(number) {
            Some(constant) => {
                if levels == 0 {
                    self.put_flat(alloc, parts, 0, at, ty, number, constant)
                } else {
                    self.put_nested(alloc, parts, levels - 1, at, ty, number, constant)
                }
            }
            None => Err(NoValue::RuleBroken),
        }
    }
}
