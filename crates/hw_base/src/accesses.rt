/// What is done to memory. `Free` is the access of a call that frees a heap block; its size is 0.
#[derive(Clone, Copy, Debug, PartialEq, Eq)]
pub enum Access {
    Read,
    Write,
    Free,
}

/// The kinds of violations, named as the public sanitizers name their reports. `NoObject` is an access through a
/// pointer that is based on null.
#[derive(Clone, Copy, Debug, PartialEq, Eq)]
pub enum Kind {
    HeapOverflow,
    UseAfterFree,
    StackOverflow,
    UseAfterReturn,
    GlobalOverflow,
    NoObject,
    DoubleFree,
    BadFree,
}

/// Why a run has left the profile of programs of which something is claimed.
#[derive(Clone, Copy, Debug, PartialEq, Eq)]
pub enum Reason {
    /// The offset is no multiple of the stated alignment.
    Misaligned,
    /// A pointer was read from bytes that aren't the eight bytes of one pointer in order.
    MixedBytes,
    /// An integer was read over a byte of a stored pointer.
    IntegerOverPieces,
    /// Pointers to different objects were compared.
    Compare,
}
