use crate::unbuilt;
use hw_base::{BinOp, ByteList, OutOfMemory, SizeList};
use ir_core::{
    BlockList, DeclareList, Fault, Function, FunctionList, GlobalList, Inst, InstList, IrType,
    LayoutList, Meta, Module, Op, Operand, Place, Placed, Refusal, TypeIdList, TypeList,
};
use std::alloc::Global;
use std::test::Fail;

/// The numbers of the types `i32` and `ptr` in the modules below.
const NUMBER: u32 = 1;

const POINTER: u32 = 2;

fn types(alloc: Global) -> Result<TypeList, OutOfMemory> {
    let mut types = TypeList::new(alloc);
    types.push(IrType::Void)?;
    types.push(IrType::Int(32))?;
    types.push(IrType::Ptr)?;
    Ok(types)
}

/// The first parameter, with its spelled type.
fn parameter(ty: u32) -> Placed {
    Placed {
        operand: Operand::Reg(0),
        ty,
        fits: true,
        place: Place { line: 3, column: 9 },
    }
}

fn sum() -> Op {
    Op::Binary {
        op: BinOp::Add,
        a: parameter(NUMBER),
        b: parameter(NUMBER),
    }
}

/// A load of an `i32` with a stated alignment.
fn load(align: u32) -> Op {
    Op::Load {
        ty: NUMBER,
        at: parameter(POINTER),
        align,
    }
}

fn variable() -> Op {
    Op::Alloca {
        index: 0,
        ty: NUMBER,
        count: None,
    }
}

fn at_line(line: u32, op: Op) -> Inst {
    Inst {
        op,
        result: None,
        dbg: None,
        place: Place { line, column: 3 },
    }
}

/// A function at 2:12 with one parameter of a type and two instructions, which are at 3:3 and 4:3.
fn function(alloc: Global, ty: u32, first: Op, second: Op) -> Result<Function, OutOfMemory> {
    let mut regs = TypeIdList::new(alloc);
    regs.push(ty)?;
    let mut insts = InstList::new(alloc);
    insts.push(at_line(3, first))?;
    insts.push(at_line(4, second))?;
    Ok(Function {
        name: ByteList::from_vec(b"main".as_slice().to_vec(alloc)?),
        params: 1,
        result: NUMBER,
        regs,
        allocas: SizeList::new(alloc),
        blocks: BlockList::new(alloc),
        insts,
        place: Place {
            line: 2,
            column: 12,
        },
    })
}

fn module(alloc: Global, f: Function) -> Result<Module, OutOfMemory> {
    let mut functions = FunctionList::new(alloc);
    functions.push(f)?;
    Ok(Module {
        types: types(alloc)?,
        fields: TypeIdList::new(alloc),
        layouts: LayoutList::new(alloc),
        globals: GlobalList::new(alloc),
        declares: DeclareList::new(alloc),
        functions,
        main: 0,
        meta: Meta::new(alloc),
    })
}

/// What is unbuilt in a module of one such function, whose parameter is a pointer.
fn found(alloc: Global, first: Op, second: Op) -> Result<Option<Refusal>, OutOfMemory> {
    let f = function(alloc, POINTER, first, second)?;
    let m = module(alloc, f)?;
    Ok(unbuilt(&m))
}

fn unsupported(line: u32, column: u32) -> Option<Refusal> {
    Some(Refusal {
        fault: Fault::Unsupported,
        line,
        column,
    })
}

#[test]
fn sums_variables_and_aligned_loads_are_built(rt: HostRuntime) -> Result<(), Fail> {
    assert_eq!(rt; found(rt.alloc(), sum(), load(4))?, None);
    assert_eq!(rt; found(rt.alloc(), variable(), load(4))?, None);
    Ok(())
}

#[test]
fn what_is_unbuilt_is_refused_at_its_place(rt: HostRuntime) -> Result<(), Fail> {
    let alloc = rt.alloc();
    assert_eq!(rt; found(alloc, sum(), load(2))?, unsupported(4, 3));
    assert_eq!(rt; found(alloc, load(1), sum())?, unsupported(3, 3));
    Ok(())
}

#[test]
fn the_first_place_is_the_one_refused(rt: HostRuntime) -> Result<(), Fail> {
    assert_eq!(rt; found(rt.alloc(), load(2), load(1))?, unsupported(3, 3));
    Ok(())
}
