/// A letter of a type's shape.
#[derive(Clone, Copy, Debug, PartialEq, Eq, PartialOrd, Ord)]
pub enum Letter {
    /// The type with this number, which is one only with itself.
    Own(u64),
    Void,
    Ptr,
    /// An integer, by its width in bits.
    Int(u32),
    /// The pair of an integer of this width in bits and an `i1`.
    Pair(u32),
    /// An array of so many items.
    Array(u64),
    /// A struct, packed or not.
    Struct(bool),
    /// A part of this class.
    Part(u64),
}
