use super::*;
use ir_core::{IrType, TypeIdList, TypeList};

/// How many types hold one another.
const MANY: u32 = 100_000;

/// A struct that holds two types.
fn pair(first: u32) -> IrType {
    IrType::Struct {
        first,
        count: 2,
        packed: false,
    }
}

/// Checks that types n and n + MANY are one, for each n below MANY, and that neighbours are not.
fn are_twins(
    rt: &impl Abort,
    alloc: Global,
    types: &TypeList,
    fields: &TypeIdList,
) -> Result<(), OutOfMemory> {
    let classes = classes(alloc, types, fields, &[])?;
    let (front, back) = classes.split_at(classes.len() / 2);
    assert_eq!(rt; front.len(), MANY as usize);
    assert_eq!(rt; front, back);
    for (class, next) in front.iter().zip(back.iter().skip(1)) {
        assert!(rt; class != next);
    }
    Ok(())
}

#[test]
fn arrays_of_arrays(rt: HostRuntime) -> Result<(), Fail> {
    let alloc = rt.alloc();
    let mut types = TypeList::new(alloc);
    for copy in 0..2 {
        let first = copy * MANY;
        types.push(IrType::Int(8))?;
        for n in 0..MANY - 1 {
            types.push(IrType::Array {
                count: 1,
                item: first + n,
            })?;
        }
    }
    are_twins(&rt, alloc, &types, &TypeIdList::new(alloc))?;
    Ok(())
}

#[test]
fn structs_that_hold_one_type_twice(rt: HostRuntime) -> Result<(), Fail> {
    let alloc = rt.alloc();
    let mut types = TypeList::new(alloc);
    let mut fields = TypeIdList::new(alloc);
    for copy in 0..2 {
        let first = copy * MANY;
        types.push(IrType::Int(8))?;
        for n in 0..MANY - 1 {
            types.push(pair(2 * (copy * (MANY - 1) + n)))?;
            fields.push(first + n)?;
            fields.push(first + n)?;
        }
    }
    are_twins(&rt, alloc, &types, &fields)?;
    Ok(())
}

#[test]
fn structs_that_hold_the_one_behind_twice(rt: HostRuntime) -> Result<(), Fail> {
    let alloc = rt.alloc();
    let mut types = TypeList::new(alloc);
    let mut fields = TypeIdList::new(alloc);
    for copy in 0..2 {
        let first = copy * MANY;
        for n in 0..MANY - 1 {
            types.push(pair(2 * (copy * (MANY - 1) + n)))?;
            fields.push(first + n + 1)?;
            fields.push(first + n + 1)?;
        }
        types.push(IrType::Int(8))?;
    }
    are_twins(&rt, alloc, &types, &fields)?;
    Ok(())
}
