use super::*;
use ir_core::{Place, Token, TokenKind, TypeLayout, layouts};

/// How many names lead to one another.
const MANY: usize = 100_000;

/// A name's token: where a name leads is told by the leads alone.
const NAME: SpelledType = SpelledType::Named(Token {
    kind: TokenKind::Local,
    from: 0,
    to: 2,
    place: Place { line: 1, column: 1 },
});

#[test]
fn each_name_leads_to_the_one_before(rt: HostRuntime) -> Result<(), Fail> {
    let alloc = rt.alloc();
    let mut types = vec![in alloc; SpelledType::Ptr]?;
    let mut leads = vec![in alloc; 0]?;
    for n in 0..MANY {
        types.push(NAME)?;
        leads.push(n)?;
    }
    let given = numbered(&rt, alloc, &types, &[], &leads)?;
    assert_eq!(rt; given.numbers, vec![in alloc; 0; MANY + 1]?);
    Ok(())
}

#[test]
fn each_name_leads_to_the_one_behind(rt: HostRuntime) -> Result<(), Fail> {
    let alloc = rt.alloc();
    let mut types = Vec::new(alloc);
    let mut leads = Vec::new(alloc);
    for n in 0..MANY {
        types.push(NAME)?;
        leads.push(n + 1)?;
    }
    types.push(SpelledType::Ptr)?;
    leads.push(MANY)?;
    let given = numbered(&rt, alloc, &types, &[], &leads)?;
    assert_eq!(rt; given.numbers, vec![in alloc; MANY as u32; MANY + 1]?);
    Ok(())
}

#[test]
fn names_in_a_ring_stand_for_themselves(rt: HostRuntime) -> Result<(), Fail> {
    let alloc = rt.alloc();
    let mut types = Vec::new(alloc);
    let mut leads = Vec::new(alloc);
    let mut numbers = Vec::new(alloc);
    for n in 0..MANY {
        types.push(NAME)?;
        leads.push((n + 1) % MANY)?;
        numbers.push(n as u32)?;
    }
    let given = numbered(&rt, alloc, &types, &[], &leads)?;
    assert_eq!(rt; given.numbers, numbers);
    Ok(())
}

#[test]
fn many_names_of_a_long_struct_cost_no_more_than_their_number(rt: HostRuntime) -> Result<(), Fail> {
    let alloc = rt.alloc();
    let mut types = vec![in alloc; SpelledType::Int(8)]?;
    let mut leads = vec![in alloc; 0]?;
    types.push(SpelledType::Struct {
        first: 0,
        count: MANY,
        packed: false,
    })?;
    leads.push(1)?;
    let fields = vec![in alloc; 0; MANY]?;
    for _ in 0..MANY {
        types.push(NAME)?;
        leads.push(1)?;
    }
    let given = numbered(&rt, alloc, &types, &fields, &leads)?;
    let sizes = layouts(alloc, &given.types, &given.fields)?;
    let last = sizes.as_slice().last();
    assert!(rt;
        matches!(
            last,
            Some(TypeLayout::Known {
                size: 100_000,
                align: 1
            })
        )
    );
    let classes = classes(alloc, &given.types, &given.fields, &[])?;
    assert_eq!(rt; classes.len(), MANY + 2);
    Ok(())
}
