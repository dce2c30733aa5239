use ir_core::ValueList;

/// A value that a machine instruction names: a machine register of its function, a number as its bits without sign, or
/// the tagged address `off` bytes after the start of a global variable.
#[derive(Clone, Copy)]
pub enum MiOperand {
    Reg(u32),
    Num(u128),
    Global { global: u32, off: u64 },
}

/// Operands in order.
pub type MiOperandList = ValueList<MiOperand>;

/// How wide a number of a load, a store or a comparison is: so many bits, 1 to 128, or a pointer's 64 bits.
#[derive(Clone, Copy)]
pub enum Width {
    Int(u32),
    Ptr,
}

/// What an index adds to an address: a number of `width` bits, taken with its sign, times `size` bytes; or a struct
/// field's offset in bytes.
#[derive(Clone, Copy)]
pub enum IndexStep {
    Scaled {
        value: MiOperand,
        width: u32,
        size: u64,
    },
    Offset(u64),
}

/// The steps of an address computation in order.
pub type IndexStepList = ValueList<IndexStep>;
