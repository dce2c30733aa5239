use hw_base::ByteList;
use ir_core::OwnedList;

/// A place in the source: the name of a file as the metadata has it, a line and a column, both counted from 1. A line or a
/// column that isn't known is 0.
#[derive(Drop)]
pub struct Spot {
    pub file: ByteList,
    pub line: u32,
    pub column: u32,
}

/// One level of where an instruction is: the function's name in the source and a place, or else the name that the module gives
/// the function of the instruction.
#[derive(Drop)]
pub struct Frame {
    pub func: ByteList,
    pub place: Option<Spot>,
}

/// The frames of an instruction, innermost first: that of its own location, and those of the calls by which it was inlined.
pub type Frames = OwnedList<Frame>;
