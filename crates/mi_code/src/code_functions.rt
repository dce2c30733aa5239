use crate::MiOp;
use hw_base::Site;
use ir_core::{OwnedList, ValueList};

/// To which step a machine instruction belongs: to the step that calls its function, to that of the source instruction
/// before which it was added, or to that of the source instruction that it does.
#[derive(Clone, Copy)]
pub enum Mark {
    Entry,
    Added(Site),
    Source(Site),
}

/// A machine instruction.
#[derive(Drop)]
pub struct Mi {
    pub mark: Mark,
    pub op: MiOp,
}

/// The machine instructions of a function, by their places.
pub type MiList = OwnedList<Mi>;

/// Places in the code of a function.
pub type IndexList = ValueList<u32>;

/// The code of a function. `registers` is how many machine registers a frame has, `params` how many parameters.
/// `starts` has for each block the place of its first machine instruction.
#[derive(Drop)]
pub struct CodeFunction {
    pub registers: u32,
    pub params: u32,
    pub insts: MiList,
    pub starts: IndexList,
}

/// The code of a module, by the numbers of its functions.
pub type Code = OwnedList<CodeFunction>;
