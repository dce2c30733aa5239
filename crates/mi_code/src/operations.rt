use crate::{Edge, IndexStepList, MiCaseList, MiOperand, MiOperandList, Width};
use hw_base::{Access, BinOp, BitOp, CastOp, OverOp, Pred, RmwOp};
use ir_core::Lib;

/// What a machine instruction does. The first six are the tag work that the instrumentation adds (Clang's HWASan design
/// document, sections "Memory accesses" and "Stack"); the others do what a source instruction says, on numbers. `to` is
/// the machine register of the result, the one after the last of a frame for a result without a register; a pair's second
/// part goes to the next one. Sizes are in bytes, widths in bits.
#[derive(Drop)]
pub enum MiOp {
    /// The variables of the entered frame get their memory and tags.
    Enter,
    /// The variables of the frame that ends lose theirs.
    Leave,
    /// The check of an access to `n` bytes that lie in one granule.
    One {
        at: MiOperand,
        n: u32,
        access: Access,
    },
    /// The check of an access to `n` bytes, granule by granule.
    Sized {
        at: MiOperand,
        n: MiOperand,
        access: Access,
    },
    /// The check of the reads of a string, byte by byte up to its first 0.
    Str {
        at: MiOperand,
    },
    /// The check of a pointer that is to be freed.
    FreeCheck {
        at: MiOperand,
    },
    Binary {
        op: BinOp,
        width: u32,
        to: u32,
        a: MiOperand,
        b: MiOperand,
    },
    Icmp {
        pred: Pred,
        width: Width,
        to: u32,
        a: MiOperand,
        b: MiOperand,
    },
    Cast {
        op: CastOp,
        from: u32,
        width: u32,
        to: u32,
        a: MiOperand,
    },
    /// An intrinsic on bits, with all arguments of the call.
    Bits {
        op: BitOp,
        width: u32,
        to: u32,
        args: MiOperandList,
    },
    Overflow {
        op: OverOp,
        width: u32,
        to: u32,
        a: MiOperand,
        b: MiOperand,
    },
    Select {
        to: u32,
        cond: MiOperand,
        a: MiOperand,
        b: MiOperand,
    },
    Freeze {
        to: u32,
        a: MiOperand,
    },
    Alloca {
        to: u32,
        variable: u32,
    },
    Gep {
        to: u32,
        base: MiOperand,
        indices: IndexStepList,
    },
    Load {
        width: Width,
        to: u32,
        at: MiOperand,
    },
    Store {
        width: Width,
        value: MiOperand,
        at: MiOperand,
    },
    Rmw {
        op: RmwOp,
        width: u32,
        to: u32,
        at: MiOperand,
        value: MiOperand,
    },
    CmpXchg {
        width: u32,
        to: u32,
        at: MiOperand,
        expected: MiOperand,
        new: MiOperand,
    },
    /// A part of the pair whose first register is the operand's.
    Part {
        to: u32,
        of: MiOperand,
        part: u8,
    },
    /// A fence, an assumption, and the beginning and end of a variable's life.
    Nop,
    Jump {
        edge: Edge,
    },
    Branch {
        cond: MiOperand,
        yes: Edge,
        no: Edge,
    },
    Switch {
        width: u32,
        on: MiOperand,
        other: Edge,
        cases: MiCaseList,
    },
    Call {
        func: u32,
        to: Option<u32>,
        args: MiOperandList,
    },
    /// A call of a declared function other than an intrinsic on bits or with overflow. `start` is the function that
    /// `pthread_create` starts; `args` then doesn't hold it.
    CallLib {
        lib: Lib,
        to: Option<u32>,
        args: MiOperandList,
        start: Option<u32>,
    },
    Ret {
        value: Option<MiOperand>,
    },
    Unreachable,
}
