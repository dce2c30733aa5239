/// A source instruction: the number of its function in the module, and its place in that function's text order,
/// counted from 0 with phis counted.
#[derive(Clone, Copy, Debug, PartialEq, Eq)]
pub struct Site {
    pub func: u32,
    pub inst: u32,
}

/// An object: the number of its birth, and its index among the objects of that birth. A birth is all globals
/// together, one frame, or one heap block, numbered from 0 in order.
#[derive(Clone, Copy, Debug, PartialEq, Eq)]
pub struct Obj {
    pub birth: u32,
    pub index: u32,
}

/// What a pointer of the source program is based on.
#[derive(Clone, Copy, Debug, PartialEq, Eq)]
pub enum Base {
    Null,
    Object(Obj),
}

/// A pointer of the source program: a base and an offset in bytes, taken modulo 2^64. It has no address and no tag.
#[derive(Clone, Copy, Debug, PartialEq, Eq)]
pub struct Pointer {
    pub base: Base,
    pub off: u64,
}
