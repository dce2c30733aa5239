use super::*;
use ir_core::{IrType, TypeIdList, TypeList};

/// Types, each with its mark as the body of a named type, and the number of the first type that it is one with.
const TYPES: [(IrType, bool, usize); 35] = [
    // 0: i32
    (IrType::Int(32), false, 0),
    // 1: i32
    (IrType::Int(32), false, 0),
    // 2: i64
    (IrType::Int(64), false, 2),
    // 3: ptr
    (IrType::Ptr, false, 3),
    // 4: ptr
    (IrType::Ptr, false, 3),
    // 5: [2 x i32]
    (IrType::Array { count: 2, item: 0 }, false, 5),
    // 6: [2 x i32]
    (IrType::Array { count: 2, item: 1 }, false, 5),
    // 7: [3 x i32]
    (IrType::Array { count: 3, item: 0 }, false, 7),
    // 8: [2 x i64]
    (IrType::Array { count: 2, item: 2 }, false, 8),
    // 9: { i32, ptr }
    (
        IrType::Struct {
            first: 0,
            count: 2,
            packed: false,
        },
        false,
        9,
    ),
    // 10: { i32, ptr }
    (
        IrType::Struct {
            first: 2,
            count: 2,
            packed: false,
        },
        false,
        9,
    ),
    // 11: <{ i32, ptr }>
    (
        IrType::Struct {
            first: 4,
            count: 2,
            packed: true,
        },
        false,
        11,
    ),
    // 12: { ptr, i32 }
    (
        IrType::Struct {
            first: 6,
            count: 2,
            packed: false,
        },
        false,
        12,
    ),
    // 13: { i32 }
    (
        IrType::Struct {
            first: 8,
            count: 1,
            packed: false,
        },
        false,
        13,
    ),
    // 14: %a = type { i32, ptr }
    (
        IrType::Struct {
            first: 9,
            count: 2,
            packed: false,
        },
        true,
        14,
    ),
    // 15: %b = type { i32, ptr }
    (
        IrType::Struct {
            first: 11,
            count: 2,
            packed: false,
        },
        true,
        15,
    ),
    // 16: { %a }
    (
        IrType::Struct {
            first: 13,
            count: 1,
            packed: false,
        },
        false,
        16,
    ),
    // 17: { %a }
    (
        IrType::Struct {
            first: 14,
            count: 1,
            packed: false,
        },
        false,
        16,
    ),
    // 18: { %b }
    (
        IrType::Struct {
            first: 15,
            count: 1,
            packed: false,
        },
        false,
        18,
    ),
    // 19: { i32, i1 }, of a `cmpxchg`
    (IrType::Pair(32), false, 19),
    // 20: { i32, i1 }, of a `cmpxchg`
    (IrType::Pair(32), false, 19),
    // 21: { i64, i1 }, of a `cmpxchg`
    (IrType::Pair(64), false, 21),
    // 22: [2 x [2 x i32]]
    (IrType::Array { count: 2, item: 5 }, false, 22),
    // 23: [2 x [2 x i32]]
    (IrType::Array { count: 2, item: 6 }, false, 22),
    // 24: {}
    (
        IrType::Struct {
            first: 16,
            count: 0,
            packed: false,
        },
        false,
        24,
    ),
    // 25: {}
    (
        IrType::Struct {
            first: 16,
            count: 0,
            packed: false,
        },
        false,
        24,
    ),
    // 26: <{}>
    (
        IrType::Struct {
            first: 16,
            count: 0,
            packed: true,
        },
        false,
        26,
    ),
    // 27: void
    (IrType::Void, false, 27),
    // 28: void
    (IrType::Void, false, 27),
    // 29: opaque
    (IrType::Opaque, false, 29),
    // 30: opaque
    (IrType::Opaque, false, 30),
    // 31: { i32, ptr, ptr }
    (
        IrType::Struct {
            first: 16,
            count: 3,
            packed: false,
        },
        false,
        31,
    ),
    // 32: { { i32, ptr }, i32 }
    (
        IrType::Struct {
            first: 19,
            count: 2,
            packed: false,
        },
        false,
        32,
    ),
    // 33: { { i32, ptr }, i32 }
    (
        IrType::Struct {
            first: 21,
            count: 2,
            packed: false,
        },
        false,
        32,
    ),
    // 34: { <{ i32, ptr }>, i32 }
    (
        IrType::Struct {
            first: 23,
            count: 2,
            packed: false,
        },
        false,
        34,
    ),
];

const FIELDS: [u32; 25] = [
    0, 3, 1, 4, 0, 3, 3, 0, 0, 0, 3, 1, 4, 14, 14, 15, 0, 3, 3, 9, 0, 10, 1, 11, 0,
];

#[test]
fn types_are_one_where_their_parts_are(rt: HostRuntime) -> Result<(), Fail> {
    let alloc = rt.alloc();
    let mut types = TypeList::new(alloc);
    let mut named = Vec::new(alloc);
    let mut firsts = Vec::new(alloc);
    for (ty, mark, first) in TYPES {
        types.push(ty)?;
        named.push(mark)?;
        firsts.push(first)?;
    }
    let fields = TypeIdList::from_vec(Vec::from_slice(alloc, &FIELDS)?);
    let classes = classes(alloc, &types, &fields, &named)?;
    assert_eq!(rt; classes.len(), firsts.len());
    for (a, (class, first)) in classes.iter().zip(firsts.iter()).enumerate() {
        for (b, (other, second)) in classes.iter().zip(firsts.iter()).enumerate() {
            assert_eq!(rt; class == other, first == second, "types {a} and {b}");
        }
    }
    Ok(())
}
