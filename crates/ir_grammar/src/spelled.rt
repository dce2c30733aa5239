use ir_core::Token;

/// An integer as it is spelled: its digits' number, and whether it is below 0.
#[derive(Clone, Copy, Debug, PartialEq, Eq)]
pub struct SpelledInteger {
    pub magnitude: u128,
    pub negative: bool,
}

/// A type as it is spelled. Numbers are those of types and fields that were read before it.
#[derive(Clone, Copy, Debug, PartialEq, Eq)]
pub enum SpelledType {
    Void,
    Ptr,
    /// An integer of this many bits, 1 to 128.
    Int(u128),
    /// `opaque`, behind a type's name.
    Opaque,
    /// `metadata`, in a declare.
    Metadata,
    /// A type by its name: the local.
    Named(Token),
    /// An array of `count` items, 0 to 2^64 - 1, of the type with number `item`.
    Array {
        count: u128,
        item: usize,
    },
    /// A struct whose fields are the `count` entries from `first` on of the list of fields.
    Struct {
        first: usize,
        count: usize,
        packed: bool,
    },
}

/// A constant as it is spelled. Numbers are those of types, constants, elements and indices that were read before it.
#[derive(Clone, Copy, Debug, PartialEq, Eq)]
pub enum SpelledConstant {
    /// A register or a parameter: what its name means is decided later.
    Local(Token),
    /// A global, by its name.
    Global(Token),
    Integer(SpelledInteger),
    /// `true` or `false`.
    Bool(bool),
    Null,
    /// `undef`, `poison` or `zeroinitializer`: zero or null.
    Zero,
    /// A byte string.
    Bytes(Token),
    /// `[ .. ]` with the `count` elements from `first` on of the list of elements.
    Array {
        first: usize,
        count: usize,
    },
    /// `{ .. }`, or packed `<{ .. }>`, with the `count` elements from `first` on of the list of elements.
    Struct {
        first: usize,
        count: usize,
        packed: bool,
    },
    /// `getelementptr` of the type `of` from the constant `base`, with the `count` indices from `first` on of the list of
    /// indices.
    Address {
        of: usize,
        base: usize,
        first: usize,
        count: usize,
    },
}

/// A constant and its type, by their numbers.
#[derive(Clone, Copy, Debug, PartialEq, Eq)]
pub struct TypedConstant {
    pub ty: usize,
    pub value: usize,
}

/// An index of a `getelementptr`: a type by its number, and an integer.
#[derive(Clone, Copy, Debug, PartialEq, Eq)]
pub struct TypedIndex {
    pub ty: usize,
    pub value: SpelledInteger,
}

/// A parameter of a declare: the number of its type, and its name where it has one.
#[derive(Clone, Copy, Debug, PartialEq, Eq)]
pub struct SpelledParameter {
    pub ty: usize,
    pub name: Option<Token>,
}

/// An item of a module as it is spelled. Numbers are those of types, constants and parameters that were read before it.
#[derive(Clone, Copy, Debug, PartialEq, Eq)]
pub enum SpelledItem {
    /// A source file name, a target or a group of attributes: nothing that a module keeps.
    Skipped,
    /// A type by its name, the local, and the number of what it stands for.
    Type {
        name: Token,
        ty: usize,
    },
    /// A global variable, or a constant, by its name, with the numbers of its type and of its first value.
    Global {
        name: Token,
        constant: bool,
        ty: usize,
        value: usize,
    },
    /// `@llvm.used` or `@llvm.compiler.used`, which defines no name.
    Used,
    /// A function that is declared, by its name, with the number of its result's type and the `count` parameters from
    /// `first` on of the list of parameters.
    Declare {
        name: Token,
        result: usize,
        first: usize,
        count: usize,
    },
    /// A function that is defined, by its name, with the number of its result's type, the `count` parameters from `first` on of
    /// the list of parameters, and the `blocks` blocks of its body from `entry` on of the list of blocks.
    Define {
        name: Token,
        result: usize,
        first: usize,
        count: usize,
        entry: usize,
        blocks: usize,
    },
    /// A metadata node, by its number.
    Node {
        number: Token,
    },
    /// A named list of metadata, by its name.
    NodeList {
        name: Token,
    },
}
