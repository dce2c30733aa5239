use crate::MiOperand;
use ir_core::{OwnedList, ValueList};

/// The move of a value into a machine register, which does what a phi does on one edge.
#[derive(Clone, Copy)]
pub struct Move {
    pub to: u32,
    pub value: MiOperand,
}

/// The moves of an edge, which are done at once.
pub type MoveList = ValueList<Move>;

/// Where control goes: the place of an instruction in the code of the same function, and the moves that are made on the
/// way.
#[derive(Drop)]
pub struct Edge {
    pub place: u32,
    pub moves: MoveList,
}

/// A case of a switch: the number, and where it goes.
#[derive(Drop)]
pub struct MiCase {
    pub value: u128,
    pub edge: Edge,
}

/// The cases of a switch in order.
pub type MiCaseList = OwnedList<MiCase>;
