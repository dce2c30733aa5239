ghost use Rattle.std.specs.Prelude.{◌≡◌, ◌+◌, ◌%◌, ◌^◌, fold, slice_get, None, Some};
ghost use Rattle.ir_first_values.specs.Offsets.{IsReady};
ghost use Rattle.ir_first_values.specs.Tables.{tables_of, items_from, type_at};
ghost use Rattle.ir_first_values.specs.Addresses.{null_address, variable_address, scaled_by, scaled, field_by, step_by, onward, stepped, place_of, moved, indexed, plain_address, address_by, address_of};

use crate::Initializers;
use crate::integers::{i32_by, index_by};
use crate::parts::TypePart;
use ir_core::IrType;
use ir_grammar::{SpelledConstant, TypedIndex};

/// An address: so many bytes after the start of a variable, by its number, or after null, modulo 2^64.
#[derive(Clone, Copy)]
pub(crate) struct Address {
    pub variable: Option<u32>,
    pub offset: u64,
}

/// The start of a variable, if there is one.
fn variable_address(variable: Option<Option<u32>>) -> Option<Address>
    ensures { result ≡ variable_address variable }
{
    match variable {
        Some(Some(global)) => Some(Address {
            variable: Some(global),
            offset: 0,
        }),
        _ => None,
    }
}

/// A step from a place in a type, whose offset is added modulo 2^64.
fn onward(offset: u64, step: Option<TypePart>) -> Option<TypePart>
    ensures { result ≡ onward offset step }
{
    match step {
        Some(part) => Some(TypePart {
            ty: part.ty,
            offset: offset.wrapping_add(part.offset),
        }),
        None => None,
    }
}

/// An address with an offset added modulo 2^64.
fn moved(base: Option<Address>, place: Option<TypePart>) -> Option<Address>
    ensures { result ≡ moved base place }
{
    match base {
        Some(base) => match place {
            Some(place) => Some(Address {
                variable: base.variable,
                offset: base.offset.wrapping_add(place.offset),
            }),
            None => None,
        },
        None => None,
    }
}

impl<'a> Initializers<'a> {
    /// So many values of a type, modulo 2^64 bytes.
    fn scaled_by(&self, ty: u32, number: Option<u64>) -> Option<TypePart>
        requires { IsReady self.now }
        ensures { result ≡ scaled_by (tables_of self.now) ty number }
    {
        match number {
            Some(number) => Some(TypePart {
                ty,
                offset: number.wrapping_mul(self.counted_size(ty)),
            }),
            None => None,
        }
    }

    /// So many values of a type, by an index.
    fn scaled(&self, ty: u32, index: TypedIndex) -> Option<TypePart>
        requires { IsReady self.now }
        ensures { result ≡ scaled (tables_of self.now) ty index }
    {
        self.scaled_by(ty, index_by(self.spelled_type(index.ty), index.value))
    }

    /// The field of a struct with this number.
    fn field_by(&self, ty: u32, number: Option<u32>) -> Option<TypePart>
        requires { IsReady self.now }
        ensures { result ≡ field_by (tables_of self.now) ty number }
    {
        match number {
            Some(number) => self.part_of(ty, number as usize),
            None => None,
        }
    }

    /// The step of an index into a type.
    fn step_by(&self, ty: u32, index: TypedIndex) -> Option<TypePart>
        requires { IsReady self.now }
        ensures { result ≡ step_by (tables_of self.now) ty index (type_at (tables_of self.now) ty) }
    {
        match self.type_at(ty) {
            Some(IrType::Array { item, .. }) => self.scaled(item, index),
            Some(IrType::Struct { .. }) => {
                self.field_by(ty, i32_by(self.spelled_type(index.ty), index.value))
            }
            _ => None,
        }
    }

    /// The place that an index leads to from another.
    fn stepped(&self, place: Option<TypePart>, index: TypedIndex) -> Option<TypePart>
        requires { IsReady self.now }
        ensures { result ≡ stepped (tables_of self.now) place index }
    {
        match place {
            Some(place) => onward(place.offset, self.step_by(place.ty, index)),
            None => None,
        }
    }

    /// The place that indices lead to from another.
    fn stepped_by_all(&self, start: Option<TypePart>, indices: &[TypedIndex]) -> Option<TypePart>
        requires { IsReady self.now }
        ensures { result ≡ fold (stepped (tables_of self.now)) start indices.now }
    {
        let mut place = start;
        for index in indices {
            place = self.stepped(place, *index);
        }
        place
    }

    /// Where indices lead in a type, which needs a size.
    fn place_of(&self, ty: Option<u32>, first: TypedIndex, rest: &[TypedIndex]) -> Option<TypePart>
        requires { IsReady self.now }
        ensures { result ≡ place_of (tables_of self.now) ty first rest.now }
    {
        match ty {
            Some(ty) => {
                if self.is_sized(ty) {
                    self.stepped_by_all(self.scaled(ty, first), rest)
                } else {
                    None
                }
            }
            None => None,
        }
    }

    /// An address with indices into a spelled type.
    fn indexed(&self, of: usize, indices: &[TypedIndex], base: Option<Address>) -> Option<Address>
        requires { IsReady self.now }
        ensures { result ≡ indexed (tables_of self.now) of indices.now base }
    {
        match indices {
            [] => base,
            [first, rest @ ..] => moved(base, self.place_of(self.number_of(of), *first, rest)),
        }
    }

    /// The address that a constant without brackets spells.
    fn plain_address(&self, number: usize, constant: SpelledConstant) -> Option<Address>
        ensures { result ≡ plain_address (tables_of self.now) number constant }
    {
        match constant {
            SpelledConstant::Global(_) => variable_address(self.variable_of(number)),
            SpelledConstant::Null | SpelledConstant::Zero => Some(Address {
                variable: None,
                offset: 0,
            }),
            _ => None,
        }
    }

    #[tactic(auto, unfolding(crate::specs::Addresses::address_of))]
    /// The address that a constant spells, with so many brackets within one another at most.
    pub(crate) fn address_of(&self, levels: u32, number: usize) -> Option<Address>
        requires { IsReady self.now }
        ensures { result ≡ address_of levels (tables_of self.now) number }
    {
        match self.constant_at(number) {
            Some(
                SpelledConstant::Address {
                    of,
                    base,
                    first,
                    count,
                },
            ) => {
                if levels == 0 {
                    return None;
                }
                let base = self.address_of(levels - 1, base);
                self.indexed(of, self.indices(first, count), base)
            }
            Some(constant) => self.plain_address(number, constant),
            None => None,
        }
    }
}
