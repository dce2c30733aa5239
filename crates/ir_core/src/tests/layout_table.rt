ghost use Rattle.std.specs.Prelude.{IfOk};
ghost use Rattle.ir_core.specs.Resolved.{HasLayouts};

use super::super::*;
use std::alloc::Global;
use std::test::Fail;

/// The types of the table, by number. Fields are numbered in `FIELDS`.
const TYPES: [IrType; 30] = [
    IrType::Void,
    IrType::Int(1),
    IrType::Int(8),
    IrType::Int(16),
    IrType::Int(17),
    IrType::Int(32),
    IrType::Int(33),
    IrType::Int(64),
    IrType::Int(65),
    IrType::Int(128),
    IrType::Ptr,
    // 11: [3 x i16]
    IrType::Array { count: 3, item: 3 },
    // 12: [0 x i64]
    IrType::Array { count: 0, item: 7 },
    // 13: {}
    IrType::Struct {
        first: 0,
        count: 0,
        packed: false,
    },
    // 14: { i8, i32, i8 }
    IrType::Struct {
        first: 0,
        count: 3,
        packed: false,
    },
    // 15: <{ i8, i32, i8 }>
    IrType::Struct {
        first: 0,
        count: 3,
        packed: true,
    },
    // 16: { i8, { i8, i32, i8 }, i16 }
    IrType::Struct {
        first: 3,
        count: 3,
        packed: false,
    },
    IrType::Opaque,
    // 18: [2 x opaque]
    IrType::Array { count: 2, item: 17 },
    // 19: { ptr, void }
    IrType::Struct {
        first: 6,
        count: 2,
        packed: false,
    },
    // 20: { i8, i1 }
    IrType::Pair(8),
    // 21: { i33, i1 }
    IrType::Pair(33),
    // 22: [2^40 x i8]
    IrType::Array {
        count: 0x100_0000_0000,
        item: 2,
    },
    // 23: [2^40 + 1 x i8]
    IrType::Array {
        count: 0x100_0000_0001,
        item: 2,
    },
    // 24: [2^61 x i64], 2^64 bytes
    IrType::Array {
        count: 0x2000_0000_0000_0000,
        item: 7,
    },
    // 25: { i8, [2 x itself] }
    IrType::Struct {
        first: 8,
        count: 2,
        packed: false,
    },
    IrType::Array { count: 2, item: 25 },
    // 27: { void, [2 x a type that holds itself] }
    IrType::Struct {
        first: 10,
        count: 2,
        packed: false,
    },
    // 28: { i128, [2^40 x i8] }
    IrType::Struct {
        first: 12,
        count: 2,
        packed: false,
    },
    // 29: <{ ptr, i65 }>
    IrType::Struct {
        first: 14,
        count: 2,
        packed: true,
    },
];

const FIELDS: [u32; 16] = [2, 5, 2, 2, 14, 3, 10, 0, 2, 26, 0, 26, 9, 22, 10, 8];

/// What is worked out by hand: size and alignment, none for no size, and 0 bytes at alignment 0 for a type that holds
/// itself.
const WANTED: [Option<(u64, u32)>; 30] = [
    None,
    Some((1, 1)),
    Some((1, 1)),
    Some((2, 2)),
    Some((4, 4)),
    Some((4, 4)),
    Some((8, 8)),
    Some((8, 8)),
    Some((16, 16)),
    Some((16, 16)),
    Some((8, 8)),
    Some((6, 2)),
    Some((0, 8)),
    Some((0, 1)),
    Some((12, 4)),
    Some((6, 1)),
    Some((20, 4)),
    None,
    None,
    None,
    Some((2, 1)),
    Some((16, 8)),
    Some((0x100_0000_0000, 1)),
    Some((0x100_0000_0001, 1)),
    Some((0x100_0000_0001, 8)),
    Some((0, 0)),
    Some((0, 0)),
    Some((0, 0)),
    Some((0x100_0000_0001, 16)),
    Some((24, 1)),
];

/// A module that has these types and nothing else.
fn typed(alloc: Global, types: &[IrType], fields: &[u32]) -> Result<Module, Fail>
    ensures { IfOk result HasLayouts }
{
    let types = TypeList::from_vec(types.to_vec(alloc)?);
    let fields = TypeIdList::from_vec(fields.to_vec(alloc)?);
    let layouts = layouts(alloc, &types, &fields)?;
    Ok(Module {
        types,
        fields,
        layouts,
        globals: GlobalList::new(alloc),
        declares: DeclareList::new(alloc),
        functions: FunctionList::new(alloc),
        main: 0,
        meta: Meta::new(alloc),
    })
}

#[test]
fn layouts_are_those_worked_out_by_hand(rt: HostRuntime) -> Result<(), Fail> {
    let all = typed(rt.alloc(), &TYPES, &FIELDS)?;
    assert_eq!(rt; all.layouts.len(), 30);
    for (n, want) in WANTED.iter().enumerate() {
        let want = match want {
            None => TypeLayout::NoSize,
            Some((_, 0)) => TypeLayout::Loop,
            Some((size, align)) => TypeLayout::Known {
                size: *size,
                align: *align,
            },
        };
        assert_eq!(rt; all.layouts.get(n as u64), Some(want), "type {n}");
    }
    Ok(())
}

#[test]
fn sizes_and_offsets_are_those_worked_out_by_hand(rt: HostRuntime) -> Result<(), Fail> {
    let all = typed(rt.alloc(), &TYPES, &FIELDS)?;
    for (ty, sized, small) in [
        (0, false, false),
        (4, true, true),
        (18, false, false),
        (22, true, true),
        (23, true, false),
        (25, false, false),
        (30, false, false),
    ] {
        assert_eq!(rt;
            (all.has_size(ty), all.fits(ty)),
            (sized, small),
            "type {ty}"
        );
    }
    for (ty, store, alloc) in [
        (1, 1, 1),
        (4, 3, 4),
        (6, 5, 8),
        (8, 9, 16),
        (10, 8, 8),
        (16, 20, 20),
    ] {
        if all.fits(ty) {
            assert_eq!(rt;
                (all.store_size(ty), all.alloc_size(ty)),
                (store, alloc),
                "type {ty}"
            );
        } else {
            assert!(rt; false, "type {ty} fits");
        }
    }
    Ok(())
}

/// Where a field of a struct begins, if it is one.
fn offset(all: &Module, ty: u32, field: u32) -> Option<u64>
    requires { HasLayouts all.now }
{
    match all.types.get(ty as u64) {
        Some(IrType::Struct { first, count, .. }) => {
            let there = first as u64 + count as u64 <= all.fields.len() && field < count;
            if there && all.fits(ty) {
                Some(all.field_offset(ty, field))
            } else {
                None
            }
        }
        _ => None,
    }
}

#[test]
fn fields_begin_where_they_were_worked_out_by_hand(rt: HostRuntime) -> Result<(), Fail> {
    let all = typed(rt.alloc(), &TYPES, &FIELDS)?;
    if all.fits(15) && all.fits(16) {
        assert_eq!(rt;
            all.field_offsets(rt.alloc(), 15)?.as_slice(),
            [0u64, 1, 5].as_slice()
        );
        assert_eq!(rt;
            all.field_offsets(rt.alloc(), 16)?.as_slice(),
            [0u64, 4, 16].as_slice()
        );
    } else {
        assert!(rt; false, "the structs fit");
    }
    for (ty, wanted) in [
        (14, [Some(0), Some(4), Some(8)]),
        (15, [Some(0), Some(1), Some(5)]),
        (16, [Some(0), Some(4), Some(16)]),
        (29, [Some(0), Some(8), None]),
        (13, [None, None, None]),
    ] {
        for (field, want) in wanted.iter().enumerate() {
            assert_eq!(rt;
                offset(&all, ty, field as u32),
                *want,
                "type {ty}, field {field}"
            );
        }
    }
    Ok(())
}
