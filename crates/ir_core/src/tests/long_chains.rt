use super::super::*;
use std::process::Abort;
use std::test::Fail;

/// How many named types hold one another.
const MANY: u32 = 100_000;

/// Checks that all types of a list have one layout.
fn all_are(rt: &impl Abort, layouts: &LayoutList, want: TypeLayout) {
    assert_eq!(rt; layouts.len(), MANY as u64);
    for layout in layouts.as_slice() {
        assert_eq!(rt; *layout, want);
    }
}

#[test]
fn each_holds_the_one_before(rt: HostRuntime) -> Result<(), Fail> {
    let alloc = rt.alloc();
    let mut types = TypeList::new(alloc);
    let mut fields = TypeIdList::new(alloc);
    types.push(IrType::Int(64))?;
    for n in 0..MANY - 1 {
        types.push(IrType::Struct {
            first: n,
            count: 1,
            packed: false,
        })?;
        fields.push(n)?;
    }
    all_are(
        &rt,
        &layouts(alloc, &types, &fields)?,
        TypeLayout::Known { size: 8, align: 8 },
    );
    Ok(())
}

#[test]
fn each_holds_the_one_behind(rt: HostRuntime) -> Result<(), Fail> {
    let alloc = rt.alloc();
    let mut types = TypeList::new(alloc);
    let mut fields = TypeIdList::new(alloc);
    for n in 0..MANY - 1 {
        types.push(IrType::Struct {
            first: n,
            count: 1,
            packed: false,
        })?;
        fields.push(n + 1)?;
    }
    types.push(IrType::Int(64))?;
    all_are(
        &rt,
        &layouts(alloc, &types, &fields)?,
        TypeLayout::Known { size: 8, align: 8 },
    );
    Ok(())
}

#[test]
fn a_long_ring_holds_itself(rt: HostRuntime) -> Result<(), Fail> {
    let alloc = rt.alloc();
    let mut types = TypeList::new(alloc);
    for n in 0..MANY {
        types.push(IrType::Array {
            count: 1,
            item: (n + 1) % MANY,
        })?;
    }
    all_are(
        &rt,
        &layouts(alloc, &types, &TypeIdList::new(alloc))?,
        TypeLayout::Loop,
    );
    Ok(())
}
