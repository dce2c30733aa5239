use crate::{Place, ValueList};

/// A value that an instruction names: a register of its function, an integer as its bits without sign, null, or the
/// address `off` bytes behind the start of a global variable. An address `off` bytes behind null, `off` above 0, is kept
/// as that integer.
#[derive(Clone, Copy)]
pub enum Operand {
    Reg(u32),
    Int(u128),
    Null,
    Global { global: u32, off: u64 },
}

/// A piece of a global variable's first value: `size` bytes from byte `at` on, little endian. Bytes of no piece are 0.
#[derive(Clone, Copy)]
pub struct Part {
    pub at: u64,
    pub size: u32,
    pub value: Operand,
}

/// The pieces of a global variable's first value.
pub type PartList = ValueList<Part>;

/// An operand with the number of its spelled type, and the place where it stands. `fits` says that the spelled value is
/// one of that type; where it is false `operand` means nothing.
#[derive(Clone, Copy)]
pub struct Placed {
    pub operand: Operand,
    pub ty: u32,
    pub fits: bool,
    pub place: Place,
}

/// Operands in the order of the text.
pub type PlacedList = ValueList<Placed>;

/// What a phi gives where control comes from a block, by the block's number in its function.
#[derive(Clone, Copy)]
pub struct PhiEntry {
    pub value: Placed,
    pub block: u32,
}

/// The entries of a phi in the order of the text.
pub type PhiEntryList = ValueList<PhiEntry>;

/// A case of a `switch`: the value, and the number of the block where it goes.
#[derive(Clone, Copy)]
pub struct Case {
    pub value: Placed,
    pub block: u32,
}

/// The cases of a `switch` in the order of the text.
pub type CaseList = ValueList<Case>;

/// The function that a call of `pthread_create` starts, by its number among the defined ones, with the argument's
/// spelled type and its place.
#[derive(Clone, Copy)]
pub struct StartArg {
    pub func: u32,
    pub ty: u32,
    pub place: Place,
}
