use crate::ValueList;

/// A type of a module (LLVM Language Reference, "Type System"). A type that it holds is a number in the module's list
/// of types, so that a named struct can hold a pointer to, or by mistake, itself.
#[derive(Clone, Copy, Debug, PartialEq, Eq)]
pub enum IrType {
    Void,
    /// An integer, by its width in bits, 1 to 128.
    Int(u32),
    Ptr,
    /// So many items of the type with number `item`.
    Array {
        count: u64,
        item: u32,
    },
    /// The types of its fields are the `count` numbers from index `first` on in the module's list of fields.
    Struct {
        first: u32,
        count: u32,
        packed: bool,
    },
    /// A named type without a body. Nothing is known of its size.
    Opaque,
    /// The literal struct of an integer of this width in bits and an `i1`, which `cmpxchg` and the intrinsics with
    /// overflow give.
    Pair(u32),
}

/// The room that a type takes in memory (LLVM Language Reference, "Data Layout").
#[derive(Clone, Copy, Debug, PartialEq, Eq)]
pub enum TypeLayout {
    /// The alloc size in bytes, or 2^40 + 1 where it is greater than 2^40, and the alignment in bytes.
    Known { size: u64, align: u32 },
    /// The type is or holds `void` or an opaque type.
    NoSize,
    /// The type holds itself, or holds a type that does, other than through a pointer.
    Loop,
}

/// The types of a module, by their numbers.
pub type TypeList = ValueList<IrType>;

/// Numbers of types.
pub type TypeIdList = ValueList<u32>;

/// One layout a type, by the types' numbers.
pub type LayoutList = ValueList<TypeLayout>;
