use crate::{CaseList, Lib, PhiEntryList, Placed, PlacedList, StartArg};
use hw_base::{BinOp, CastOp, Pred, RmwOp};

/// What an instruction does (LLVM Language Reference, "Instruction Reference"). A `ty`, `of`, `to` or `result` is the
/// number of a type, a `func` that of a defined function, a `declare` that of a declared one, a `block` that of a block
/// of the function. Alignments are in bytes.
#[derive(Drop)]
pub enum Op {
    Binary {
        op: BinOp,
        a: Placed,
        b: Placed,
    },
    Icmp {
        pred: Pred,
        a: Placed,
        b: Placed,
    },
    Cast {
        op: CastOp,
        a: Placed,
        to: u32,
    },
    Select {
        cond: Placed,
        a: Placed,
        b: Placed,
    },
    Freeze {
        a: Placed,
    },
    Phi {
        ty: u32,
        entries: PhiEntryList,
    },
    /// The variable `index` of the function's frame: one value of the type, or `count` of them.
    Alloca {
        index: u32,
        ty: u32,
        count: Option<Placed>,
    },
    Load {
        ty: u32,
        at: Placed,
        align: u32,
    },
    Store {
        value: Placed,
        at: Placed,
        align: u32,
    },
    Gep {
        of: u32,
        base: Placed,
        indices: PlacedList,
    },
    Fence,
    Rmw {
        op: RmwOp,
        at: Placed,
        value: Placed,
        align: u32,
    },
    CmpXchg {
        at: Placed,
        expected: Placed,
        new: Placed,
        align: u32,
    },
    /// Part 0 or 1 of a pair; none where the spelled index is another number. The operand is the pair's register for both
    /// parts.
    ExtractValue {
        of: Placed,
        part: Option<u8>,
    },
    Call {
        func: u32,
        result: u32,
        args: PlacedList,
    },
    /// A call of a declared function. `start` is the defined function that is named as the third argument of
    /// `pthread_create`; `args` then doesn't hold that argument.
    CallLib {
        declare: u32,
        result: u32,
        args: PlacedList,
        start: Option<StartArg>,
    },
    Br {
        block: u32,
    },
    BrIf {
        cond: Placed,
        yes: u32,
        no: u32,
    },
    Switch {
        on: Placed,
        other: u32,
        cases: CaseList,
    },
    Ret {
        value: Option<Placed>,
    },
    Unreachable,
}
