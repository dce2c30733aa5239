ghost use Rattle.std.specs.Prelude.{◌≡◌, ◌<◌, ◌+◌, ◌^◌, [], slice_get};
ghost use Rattle.ir_core.specs.Layout.{layout_at, layout_align};
ghost use Rattle.ir_core.specs.NumberTypes.{type_of, access_size};
ghost use Rattle.ir_core.specs.Progress.{type_at};
ghost use Rattle.ir_functions.specs.Scope.{spelled_types, type_number};
ghost use Rattle.ir_functions.specs.Instructions.{without_sign, pair_part, alignment_or, alignment, atomic_alignment, bit_type, pointer_type, pair_type, value_type};
ghost use Rattle.ir_functions.specs.Views.{scope_in};

use crate::given::{integer_number, pair_of, part_of, void_number};
use crate::resolver::Resolver;
use ir_core::{IrType, Token, TypeLayout};
use ir_grammar::SpelledOperation;
use ir_text::{significant, small_number};

/// An integer without its sign.
fn without_sign(text: &[u8]) -> &[u8]
    ensures { result.now ≡ without_sign text.now }
{
    match text {
        [] => text,
        [b, digits @ ..] => { if *b == b'-' { digits } else { text } }
    }
}

/// The part of a pair that an integer names: 0 or 1.
pub(crate) fn pair_part(text: &[u8]) -> Option<u8>
    ensures { result ≡ pair_part text.now }
{
    if significant(without_sign(text)).is_empty() {
        Some(0)
    } else if significant(text) == b"1".as_slice() {
        Some(1)
    } else {
        None
    }
}

/// The bytes that a load or store of a type touches.
fn access_size(ty: IrType) -> u32
    ensures { result ≡ access_size ty }
{
    match ty {
        IrType::Int(width) => width / 8 + u32::from(width % 8 != 0),
        IrType::Ptr => 8,
        _ => 0,
    }
}

/// The alignment of a type, by its layout, 1 where it has none.
fn alignment_of(layouts: &[TypeLayout], ty: u32) -> u32
    ensures { result ≡ layout_align (layout_at layouts.now ty) }
{
    match layouts.get(ty as usize) {
        Some(TypeLayout::Known { align, .. }) => *align,
        _ => 1,
    }
}

/// The bytes that a load or store of the type with a number touches.
fn access_size_of(types: &[IrType], ty: u32) -> u32
    ensures { result ≡ access_size (type_at types.now ty) }
{
    match types.get(ty as usize) {
        None => 0,
        Some(ty) => access_size(*ty),
    }
}

impl<'a, 'n, 'k, 'v, 'c> Resolver<'a, 'n, 'k, 'v, 'c> {
    /// How many types are spelled.
    pub(crate) fn spelled_types(&self) -> u32
        ensures value { result ≡ spelled_types (scope_in self.now) }
        ensures few { result + 300 < 2 ^ 32 }
    {
        self.names.types.len() as u32
    }

    /// The number of `i1`.
    pub(crate) fn bit_type(&self) -> u32
        ensures { result ≡ bit_type (scope_in self.now) }
    {
        integer_number(self.spelled_types(), 1)
    }

    /// The number of `ptr`.
    pub(crate) fn pointer_type(&self) -> u32
        ensures { result ≡ pointer_type (scope_in self.now) }
    {
        self.spelled_types()
    }

    /// The module's type for a spelled type.
    fn type_of(&self, ty: usize) -> Option<IrType>
        ensures { result ≡ slice_get (scope_in self.now).tables.types (type_number (scope_in self.now) ty) }
    {
        self.values.module.types.get(self.type_number(ty) as u64)
    }

    /// The number of the pair of a spelled type and an `i1`.
    pub(crate) fn pair_type(&self, ty: usize) -> u32
        ensures { result ≡ pair_type (scope_in self.now) ty }
    {
        pair_of(self.spelled_types(), self.type_of(ty))
    }

    /// The alignment that is stated, or else this one, in bytes.
    fn alignment_or(&self, other: u32, stated: &Option<Token>) -> u32
        ensures { result ≡ alignment_or (scope_in self.now) other stated.now }
    {
        match stated {
            None => other,
            Some(token) => small_number(self.token_bytes(token)),
        }
    }

    /// The alignment of a load or store, in bytes: by default that of the type.
    pub(crate) fn alignment(&self, ty: u32, stated: &Option<Token>) -> u32
        ensures { result ≡ alignment (scope_in self.now) ty stated.now }
    {
        let layouts = self.values.module.layouts.as_slice();
        self.alignment_or(alignment_of(layouts, ty), stated)
    }

    /// The alignment of an atomic instruction, in bytes: by default the size of the type.
    pub(crate) fn atomic_alignment(&self, ty: u32, stated: &Option<Token>) -> u32
        ensures { result ≡ atomic_alignment (scope_in self.now) ty stated.now }
    {
        let types = self.values.module.types.as_slice();
        self.alignment_or(access_size_of(types, ty), stated)
    }

    /// The number of the type of the value that an instruction gives, or that of `void`.
    pub(crate) fn value_type(&self, operation: &SpelledOperation) -> u32
        ensures { result ≡ value_type (scope_in self.now) operation.now }
    {
        match operation {
            SpelledOperation::Binary { a, .. } => self.type_number(a.ty),
            SpelledOperation::Icmp { .. } => self.bit_type(),
            SpelledOperation::Cast { to, .. } => self.type_number(*to),
            SpelledOperation::Freeze { a } => self.type_number(a.ty),
            SpelledOperation::Select { a, .. } => self.type_number(a.ty),
            SpelledOperation::Phi { ty, .. } => self.type_number(*ty),
            SpelledOperation::Alloca { .. } => self.pointer_type(),
            SpelledOperation::Load { ty, .. } => self.type_number(*ty),
            SpelledOperation::GetElementPtr { .. } => self.pointer_type(),
            SpelledOperation::AtomicRmw { value, .. } => self.type_number(value.ty),
            SpelledOperation::CmpXchg { new, .. } => self.pair_type(new.ty),
            SpelledOperation::ExtractValue { of, part, .. } => part_of(
                self.spelled_types(),
                pair_part(self.token_bytes(part)),
                self.type_of(*of),
            ),
            SpelledOperation::Call { result, .. } => self.type_number(*result),
            _ => void_number(self.spelled_types()),
        }
    }
}
