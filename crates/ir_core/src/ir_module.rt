use crate::{
    LayoutList, Lib, Meta, Op, OwnedList, PartList, Place, TypeIdList, TypeList, ValueList,
};
use hw_base::{ByteList, SizeList};

/// A global variable or constant. `ty` is the number of its type. `fits` says that the initializer as spelled breaks no
/// type rule; where it is false `init` means nothing. The place is that of its name.
#[derive(Drop)]
pub struct GlobalVar {
    pub name: ByteList,
    pub ty: u32,
    pub constant: bool,
    pub fits: bool,
    pub init: PartList,
    pub place: Place,
}

/// The global variables of a module, by their numbers.
pub type GlobalList = OwnedList<GlobalVar>;

/// The `!dbg` attachment of an instruction: the number of its node, and the place of that number.
#[derive(Clone, Copy)]
pub struct DbgRef {
    pub node: u32,
    pub place: Place,
}

/// An instruction: what it does, the register that it defines, and the place of its first token.
#[derive(Drop)]
pub struct Inst {
    pub op: Op,
    pub result: Option<u32>,
    pub dbg: Option<DbgRef>,
    pub place: Place,
}

/// The instructions of a function in the order of the text, phis and terminators among them.
pub type InstList = OwnedList<Inst>;

/// A basic block: `count` instructions from number `first` on, of which the first `phis` are phis and the last is the
/// terminator.
#[derive(Clone, Copy)]
pub struct Block {
    pub first: u32,
    pub phis: u32,
    pub count: u32,
}

/// The blocks of a function, the entry block first.
pub type BlockList = ValueList<Block>;

/// A defined function. `params` is how many parameters it has, which are its first registers; `result` is the number of
/// its result's type; `regs` has the number of each register's type; `allocas` has the size in bytes of each variable
/// of a frame. The place is that of its name.
#[derive(Drop)]
pub struct Function {
    pub name: ByteList,
    pub params: u32,
    pub result: u32,
    pub regs: TypeIdList,
    pub allocas: SizeList,
    pub blocks: BlockList,
    pub insts: InstList,
    pub place: Place,
}

/// The defined functions of a module, by their numbers.
pub type FunctionList = OwnedList<Function>;

/// A declared function that calls can reach: which one it is, and the spelled types. A parameter of type `metadata` is
/// kept as opaque. The place is that of its name.
#[derive(Drop)]
pub struct Declare {
    pub lib: Lib,
    pub result: u32,
    pub params: TypeIdList,
    pub place: Place,
}

/// The declared functions that calls can reach, by their numbers.
pub type DeclareList = OwnedList<Declare>;

/// A module with its names resolved to numbers. `fields` has the types of all structs' fields, which each struct type
/// points into. `layouts` has one layout a type, so that each is computed once. `main` is the number of the function
/// where a run begins.
#[derive(Drop)]
pub struct Module {
    pub types: TypeList,
    pub fields: TypeIdList,
    pub layouts: LayoutList,
    pub globals: GlobalList,
    pub declares: DeclareList,
    pub functions: FunctionList,
    pub main: u32,
    pub meta: Meta,
}
