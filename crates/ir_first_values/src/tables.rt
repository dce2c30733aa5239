ghost use Rattle.std.specs.Prelude.{◌≡◌, ◌-◌, IsTrue, slice_get};
ghost use Rattle.ir_core.specs.Resolved.{IsFitting};
ghost use Rattle.ir_first_values.specs.Offsets.{IsReady};
ghost use Rattle.ir_core.specs.Tokens.{bytes_of};
ghost use Rattle.ir_first_values.specs.Tables.{tables_of, items_from, type_at, spelled_type, are_equal, class_by, is_spelled, is_sized, is_fitting, counted_size};

use crate::FieldOffsets;
use ir_core::{IrType, Module, Token};
use ir_grammar::{SpelledConstant, Spellings, TypedConstant, TypedIndex};

/// What first values are made from. The types of the module, their fields and layouts are there; its global variables may
/// still be missing.
#[derive(Drop)]
pub struct Initializers<'a> {
    pub module: &'a Module,
    /// Where the fields of the module's structs begin.
    pub offsets: &'a FieldOffsets,
    /// The constants as they are spelled.
    pub found: &'a Spellings,
    /// The bytes of the text, in which tokens lie.
    pub source: &'a [u8],
    /// For each spelled type the number of the module's type that it stands for.
    pub numbers: &'a [u32],
    /// For each type of the module its class. Two types that have a size are one type exactly if these are equal.
    pub classes: &'a [u64],
    /// For each spelled constant that is the name of a global variable the variable's number.
    pub variables: &'a [Option<u32>],
}

/// The elements from `first` on, at most so many.
fn elements_from(elements: &[TypedConstant], first: usize, count: usize) -> &[TypedConstant]
    ensures { result.now ≡ items_from first count elements.now }
{
    let from = elements.len().min(first);
    let rest = &elements[from..];
    let to = rest.len().min(count);
    &rest[..to]
}

/// The indices from `first` on, at most so many.
fn indices_from(indices: &[TypedIndex], first: usize, count: usize) -> &[TypedIndex]
    ensures { result.now ≡ items_from first count indices.now }
{
    let from = indices.len().min(first);
    let rest = &indices[from..];
    let to = rest.len().min(count);
    &rest[..to]
}

/// Whether both are there and equal.
fn are_equal(a: Option<u64>, b: Option<u64>) -> bool
    ensures { result ≡ are_equal a b }
{
    match a {
        Some(a) => match b {
            Some(b) => a == b,
            None => false,
        },
        None => false,
    }
}

impl<'a> Initializers<'a> {
    /// The spelled constant with this number.
    pub(crate) fn constant_at(&self, constant: usize) -> Option<SpelledConstant>
        ensures { result ≡ slice_get (tables_of self.now).constants constant }
    {
        self.found.constants.get(constant).copied()
    }

    /// The elements of an array or struct.
    pub(crate) fn elements(&self, first: usize, count: usize) -> &[TypedConstant]
        ensures { result.now ≡ items_from first count (tables_of self.now).elements }
    {
        elements_from(self.found.elements.as_slice(), first, count)
    }

    /// The indices of a `getelementptr`.
    pub(crate) fn indices(&self, first: usize, count: usize) -> &[TypedIndex]
        ensures { result.now ≡ items_from first count (tables_of self.now).indices }
    {
        indices_from(self.found.indices.as_slice(), first, count)
    }

    /// The variable that a constant names.
    pub(crate) fn variable_of(&self, constant: usize) -> Option<Option<u32>>
        ensures { result ≡ slice_get (tables_of self.now).variables constant }
    {
        self.variables.get(constant).copied()
    }

    /// The bytes of a token.
    pub(crate) fn text_of(&self, token: Token) -> &[u8]
        ensures { result.now ≡ bytes_of (tables_of self.now).source token }
    {
        let to = self.source.len().min(token.to as usize);
        let from = to.min(token.from as usize);
        &self.source[from..to]
    }

    /// The number of the module's type that a spelled type stands for.
    pub(crate) fn number_of(&self, spelled: usize) -> Option<u32>
        ensures { result ≡ slice_get (tables_of self.now).numbers spelled }
    {
        self.numbers.get(spelled).copied()
    }

    /// The type with this number.
    pub(crate) fn type_at(&self, ty: u32) -> Option<IrType>
        ensures { result ≡ type_at (tables_of self.now) ty }
    {
        self.module.types.get(ty as u64)
    }

    /// The module's type that a spelled type stands for.
    pub(crate) fn spelled_type(&self, spelled: usize) -> Option<IrType>
        ensures { result ≡ spelled_type (tables_of self.now) spelled }
    {
        match self.number_of(spelled) {
            Some(ty) => self.type_at(ty),
            None => None,
        }
    }

    /// The class of the type with this number.
    fn class_at(&self, ty: u32) -> Option<u64>
        ensures { result ≡ slice_get (tables_of self.now).classes ty }
    {
        self.classes.get(ty as usize).copied()
    }

    /// The class of the type that a spelled type stands for.
    fn spelled_class(&self, spelled: usize) -> Option<u64>
        ensures { result ≡ class_by (tables_of self.now) (slice_get (tables_of self.now).numbers spelled) }
    {
        match self.number_of(spelled) {
            Some(ty) => self.class_at(ty),
            None => None,
        }
    }

    /// Whether a type of the module is the one that a spelled type stands for.
    pub(crate) fn is_spelled(&self, ty: u32, spelled: usize) -> bool
        ensures { result ≡ is_spelled (tables_of self.now) ty spelled }
    {
        are_equal(self.class_at(ty), self.spelled_class(spelled))
    }

    /// Whether a type has a size.
    pub(crate) fn is_sized(&self, ty: u32) -> bool
        requires { IsReady self.now }
        ensures { result ≡ is_sized (tables_of self.now) ty }
    {
        self.module.has_size(ty)
    }

    /// Whether a type has a size of at most 2^40 bytes.
    pub(crate) fn is_fitting(&self, ty: u32) -> bool
        requires { IsReady self.now }
        ensures value { result ≡ is_fitting (tables_of self.now).types (tables_of self.now).fields ty }
        ensures fits { IsTrue result → IsFitting self.now.module.now ty }
    {
        self.module.fits(ty)
    }

    /// The alloc size of a type in bytes, 0 if it is above 2^40.
    pub(crate) fn counted_size(&self, ty: u32) -> u64
        requires { IsReady self.now }
        ensures { result ≡ counted_size (tables_of self.now) ty }
    {
        if self.is_fitting(ty) {
            self.module.alloc_size(ty)
        } else {
            0
        }
    }
}
