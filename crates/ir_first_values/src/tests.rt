ghost use Rattle.std.specs.Prelude.{IfOk};
ghost use Rattle.ir_core.specs.Resolved.{HasLayouts};

use super::*;
use hw_base::OutOfMemory;
use ir_core::{
    DeclareList, FunctionList, GlobalList, IrType, Meta, Module, Operand, Part, Place, Token,
    TokenKind, TypeIdList, TypeList, layouts,
};
use ir_grammar::{SpelledConstant, SpelledInteger, Spellings, TypedConstant, TypedIndex};
use std::alloc::Global;
use std::process::Abort;
use std::test::Fail;

const I8: u32 = 0;

const I32: u32 = 1;

const I1: u32 = 2;

const I128: u32 = 3;

const PTR: u32 = 4;
/// { i8, i32 }
const PAIR: u32 = 5;
/// <{ i8, i32 }>
const PACKED: u32 = 6;
/// [2 x { i8, i32 }]
const PAIRS: u32 = 7;
/// [3 x i8]
const BYTES: u32 = 8;

const I64: u32 = 9;

const VOID: u32 = 10;
/// [2 x i8]
const SHORT: u32 = 11;
/// [18 x i8]
const LONG: u32 = 12;

/// A module with the types above.
fn small_module(alloc: Global) -> Result<Module, OutOfMemory>
    ensures { IfOk result (λ m. HasLayouts m) }
{
    let mut types = TypeList::new(alloc);
    for ty in [
        IrType::Int(8),
        IrType::Int(32),
        IrType::Int(1),
        IrType::Int(128),
        IrType::Ptr,
        IrType::Struct {
            first: 0,
            count: 2,
            packed: false,
        },
        IrType::Struct {
            first: 0,
            count: 2,
            packed: true,
        },
        IrType::Array {
            count: 2,
            item: PAIR,
        },
        IrType::Array { count: 3, item: I8 },
        IrType::Int(64),
        IrType::Void,
        IrType::Array { count: 2, item: I8 },
        IrType::Array {
            count: 18,
            item: I8,
        },
    ] {
        types.push(ty)?;
    }
    let mut fields = TypeIdList::new(alloc);
    fields.push(I8)?;
    fields.push(I32)?;
    let layouts = layouts(alloc, &types, &fields)?;
    Ok(Module {
        types,
        fields,
        layouts,
        globals: GlobalList::new(alloc),
        declares: DeclareList::new(alloc),
        functions: FunctionList::new(alloc),
        main: 0,
        meta: Meta::new(alloc),
    })
}

fn integer(magnitude: u128) -> SpelledConstant {
    SpelledConstant::Integer(SpelledInteger {
        magnitude,
        negative: false,
    })
}

fn below_zero(magnitude: u128) -> SpelledConstant {
    SpelledConstant::Integer(SpelledInteger {
        magnitude,
        negative: true,
    })
}

fn element(ty: u32, value: usize) -> TypedConstant {
    TypedConstant {
        ty: ty as usize,
        value,
    }
}

fn index(ty: u32, magnitude: u128, negative: bool) -> TypedIndex {
    TypedIndex {
        ty: ty as usize,
        value: SpelledInteger {
            magnitude,
            negative,
        },
    }
}

fn address(of: u32, base: usize, first: usize, count: usize) -> SpelledConstant {
    SpelledConstant::Address {
        of: of as usize,
        base,
        first,
        count,
    }
}

fn byte_string(from: u32, to: u32) -> SpelledConstant {
    SpelledConstant::Bytes(Token {
        kind: TokenKind::Bytes,
        from,
        to,
        place: Place { line: 1, column: 2 },
    })
}

fn name() -> Token {
    Token {
        kind: TokenKind::Global,
        from: 0,
        to: 0,
        place: Place { line: 1, column: 1 },
    }
}

/// A part as AT:SIZE=VALUE.
fn shown_part(alloc: Global, part: &Part) -> Result<String, Fail> {
    let (at, size) = (part.at, part.size);
    match part.value {
        Operand::Reg(register) => Ok(format!(in alloc; "{at}:{size}=%{register} ")?),
        Operand::Int(number) => Ok(format!(in alloc; "{at}:{size}={number} ")?),
        Operand::Null => Ok(format!(in alloc; "{at}:{size}=null ")?),
        Operand::Global { global, off } => Ok(format!(in alloc; "{at}:{size}=@{global}+{off} ")?),
    }
}

/// The pieces of a first value, or `-` where a rule is broken.
fn shown(alloc: Global, value: &FirstValue) -> Result<String, Fail> {
    let mut out = String::new(alloc);
    if !value.fits {
        out.push_str("-")?;
    }
    for part in value.init.as_slice() {
        out.push_str(shown_part(alloc, part)?.as_str())?;
    }
    Ok(out)
}

/// Spelled types are the module's types, each a class of its own, and constant 0 is the name of variable 3.
fn check_rows(
    rt: &impl Abort,
    alloc: Global,
    found: &Spellings,
    rows: &[(u32, usize, &str)],
) -> Result<(), Fail> {
    let module = small_module(alloc)?;
    let offsets = FieldOffsets::new(alloc, &module)?;
    let values = Initializers {
        module: &module,
        offsets: &offsets,
        found,
        source: b" c\"hi\\00\" c\"abcdefghijklmnopqr\"".as_slice(),
        numbers: &[0, 1, 2, 3, 4, 5, 6, 7, 8, 9, 10, 11, 12],
        classes: &[0, 1, 2, 3, 4, 5, 6, 7, 8, 9, 10, 11, 12],
        variables: &[Some(3), None],
    };
    for (ty, constant, want) in rows {
        let value = values.first_value(alloc, *ty, *constant)?;
        assert_eq!(rt;
            shown(alloc, &value)?.as_str(),
            *want,
            "constant {constant} of type {ty}"
        );
    }
    Ok(())
}

#[test]
fn single_constants_fit_the_types_that_they_are_values_of(rt: HostRuntime) -> Result<(), Fail> {
    let mut found = Spellings::new(rt.alloc());
    for constant in [
        SpelledConstant::Global(name()),
        SpelledConstant::Local(name()),
        below_zero(1),
        integer(255),
        integer(256),
        below_zero(128),
        below_zero(129),
        below_zero(0),
        SpelledConstant::Bool(true),
        SpelledConstant::Null,
        SpelledConstant::Zero,
        byte_string(1, 9),
        integer(u128::MAX),
        byte_string(10, 31),
    ] {
        found.constants.push(constant)?;
    }
    let rows = [
        (PTR, 0, "0:8=@3+0 "),
        (I64, 0, "-"),
        (PTR, 1, "-"),
        (I8, 2, "0:1=255 "),
        (I128, 2, "0:16=340282366920938463463374607431768211455 "),
        (I8, 3, "0:1=255 "),
        (I8, 4, "-"),
        (I8, 5, "0:1=128 "),
        (I8, 6, "-"),
        (I8, 7, "0:1=0 "),
        (I1, 8, "0:1=1 "),
        (I8, 8, "-"),
        (PTR, 9, "0:8=null "),
        (I64, 9, "-"),
        (PAIRS, 10, ""),
        (VOID, 10, "-"),
        (BYTES, 11, "0:3=26984 "),
        (PAIRS, 11, "-"),
        (SHORT, 11, "-"),
        (I1, 2, "0:1=1 "),
        (I1, 3, "-"),
        (I128, 12, "0:16=340282366920938463463374607431768211455 "),
        (I64, 12, "-"),
        (
            LONG,
            13,
            "0:16=149452120213688298009235146691947225697 16:2=29297 ",
        ),
        (I64, 14, "-"),
    ];
    check_rows(&rt, rt.alloc(), &found, rows.as_slice())
}

#[test]
fn elements_stand_at_the_places_of_their_parts(rt: HostRuntime) -> Result<(), Fail> {
    let mut found = Spellings::new(rt.alloc());
    for constant in [
        SpelledConstant::Global(name()),
        integer(7),
        below_zero(2),
        SpelledConstant::Struct {
            first: 0,
            count: 2,
            packed: false,
        },
        SpelledConstant::Struct {
            first: 0,
            count: 2,
            packed: true,
        },
        SpelledConstant::Array { first: 2, count: 2 },
        SpelledConstant::Array { first: 2, count: 1 },
        SpelledConstant::Array { first: 4, count: 3 },
        SpelledConstant::Struct {
            first: 4,
            count: 2,
            packed: false,
        },
        SpelledConstant::Array { first: 7, count: 3 },
        SpelledConstant::Zero,
        SpelledConstant::Array {
            first: 10,
            count: 2,
        },
    ] {
        found.constants.push(constant)?;
    }
    for typed in [
        element(I8, 1),
        element(I32, 2),
        element(PAIR, 3),
        element(PAIR, 3),
        element(I8, 1),
        element(I8, 2),
        element(I8, 1),
        element(I8, 1),
        element(I8, 2),
        element(I32, 1),
        element(PAIR, 10),
        element(PAIR, 3),
    ] {
        found.elements.push(typed)?;
    }
    let rows = [
        (PAIR, 3, "0:1=7 4:4=4294967294 "),
        (PACKED, 3, "-"),
        (PACKED, 4, "0:1=7 1:4=4294967294 "),
        (PAIR, 4, "-"),
        (PAIRS, 5, "0:1=7 4:4=4294967294 8:1=7 12:4=4294967294 "),
        (PAIRS, 6, "-"),
        (BYTES, 7, "0:1=7 1:1=254 2:1=7 "),
        (PAIR, 8, "-"),
        (BYTES, 9, "-"),
        (PAIR, 7, "-"),
        (PAIRS, 11, "8:1=7 12:4=4294967294 "),
    ];
    check_rows(&rt, rt.alloc(), &found, rows.as_slice())
}

#[test]
fn addresses_are_moved_by_their_indices(rt: HostRuntime) -> Result<(), Fail> {
    let mut found = Spellings::new(rt.alloc());
    for constant in [
        SpelledConstant::Global(name()),
        SpelledConstant::Null,
        SpelledConstant::Zero,
        address(PAIRS, 0, 0, 3),
        address(I32, 1, 3, 1),
        address(I8, 2, 0, 0),
        address(PAIR, 0, 4, 2),
        address(PAIR, 0, 6, 2),
        address(I8, 0, 4, 2),
        address(VOID, 0, 3, 1),
        address(VOID, 0, 0, 0),
        address(I8, 3, 3, 1),
        address(I8, 0, 8, 1),
        address(I8, 0, 9, 1),
        address(I8, 13, 3, 1),
        address(I8, 0, 10, 1),
        address(I8, 0, 11, 1),
    ] {
        found.constants.push(constant)?;
    }
    for step in [
        index(I32, 1, true),
        index(I64, 1, false),
        index(I32, 1, false),
        index(I64, 3, false),
        index(I64, 0, false),
        index(I32, 2, false),
        index(I64, 0, false),
        index(I64, 1, false),
        index(I8, 200, false),
        index(I8, 256, false),
        index(PTR, 1, false),
        index(I128, 1 << 64, false),
    ] {
        found.indices.push(step)?;
    }
    let rows = [
        (PTR, 3, "0:8=@3+18446744073709551612 "),
        (PTR, 4, "0:8=12 "),
        (PTR, 5, "0:8=null "),
        (PTR, 6, "-"),
        (PTR, 7, "-"),
        (PTR, 8, "-"),
        (PTR, 9, "-"),
        (PTR, 10, "0:8=@3+0 "),
        (PTR, 11, "0:8=@3+18446744073709551615 "),
        (PTR, 12, "0:8=@3+18446744073709551560 "),
        (PTR, 13, "-"),
        (PTR, 14, "-"),
        (PTR, 15, "-"),
        (PTR, 16, "0:8=@3+0 "),
        (I64, 3, "-"),
    ];
    check_rows(&rt, rt.alloc(), &found, rows.as_slice())
}
