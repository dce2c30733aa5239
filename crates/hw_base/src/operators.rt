/// The binary operators on integers of the LLVM Language Reference, "Binary Operations" and "Bitwise Binary Operations".
#[derive(Clone, Copy, Debug, PartialEq, Eq)]
pub enum BinOp {
    Add,
    Sub,
    Mul,
    UDiv,
    SDiv,
    URem,
    SRem,
    Shl,
    LShr,
    AShr,
    And,
    Or,
    Xor,
}

/// The condition codes of `icmp` (LLVM Language Reference, "'icmp' Instruction").
#[derive(Clone, Copy, Debug, PartialEq, Eq)]
pub enum Pred {
    Eq,
    Ne,
    Ugt,
    Uge,
    Ult,
    Ule,
    Sgt,
    Sge,
    Slt,
    Sle,
}

/// The conversions between integer types (LLVM Language Reference, "Conversion Operations").
#[derive(Clone, Copy, Debug, PartialEq, Eq)]
pub enum CastOp {
    Trunc,
    ZExt,
    SExt,
}

/// The intrinsics on bits and the integer intrinsics without overflow (LLVM Language Reference, "Bit Manipulation
/// Intrinsics" and "Standard C/C++ Library Intrinsics"), and `llvm.expect`, which gives its first argument.
#[derive(Clone, Copy, Debug, PartialEq, Eq)]
pub enum BitOp {
    BSwap,
    CtPop,
    CtLz,
    CtTz,
    FShl,
    FShr,
    SMin,
    SMax,
    UMin,
    UMax,
    Abs,
    Expect,
}

/// The operations of the `with.overflow` intrinsics (LLVM Language Reference, "Arithmetic with Overflow Intrinsics").
#[derive(Clone, Copy, Debug, PartialEq, Eq)]
pub enum OverOp {
    SAdd,
    UAdd,
    SSub,
    USub,
    SMul,
    UMul,
}

/// The operations of `atomicrmw` on integers (LLVM Language Reference, "'atomicrmw' Instruction").
#[derive(Clone, Copy, Debug, PartialEq, Eq)]
pub enum RmwOp {
    Xchg,
    Add,
    Sub,
    And,
    Nand,
    Or,
    Xor,
    Max,
    Min,
    UMax,
    UMin,
}
