//! What a text of LLVM IR is read into, a module with its types, functions and instructions by number, and how a text
//! that isn't accepted is refused: faults with their codes, places, and the line that says so. The readers above fill
//! these types and answer these refusals; the checks and runs above them read the module.
#![tactic(auto)]

mod all_layouts;
mod externals;
mod faults;
mod ir_module;
mod lib_functions;
mod lists;
mod meta;
mod module_sizes;
mod operands;
mod operations;
mod refusals;
mod token;
mod token_list;
mod type_layouts;
mod types;

pub use all_layouts::{inner_first, layouts};
pub use externals::external;
pub use faults::{Fault, Limit};
pub use ir_module::{
    Block, BlockList, DbgRef, Declare, DeclareList, Function, FunctionList, GlobalList, GlobalVar,
    Inst, InstList, Module,
};
pub use lib_functions::Lib;
pub use lists::{OwnedList, ValueList};
pub use meta::{Meta, Node, NodeKind};
pub use operands::{
    Case, CaseList, Operand, Part, PartList, PhiEntry, PhiEntryList, Placed, PlacedList, StartArg,
};
pub use operations::Op;
pub use refusals::{Place, ReadError, Refusal};
pub use token::{Token, TokenKind};
pub use token_list::Tokens;
pub use type_layouts::field_types;
pub use types::{IrType, LayoutList, TypeIdList, TypeLayout, TypeList};

#[cfg(test)]
mod tests;
#[cfg(test)]
mod token_tests;
