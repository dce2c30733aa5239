use super::*;
use ir_core::{IrType, Place, Token, TokenKind, TypeLayout, layouts};

/// A name's token: where a name leads is told by the leads alone.
const NAME: SpelledType = SpelledType::Named(Token {
    kind: TokenKind::Local,
    from: 0,
    to: 2,
    place: Place { line: 1, column: 1 },
});

/// The types of these definitions and uses, part before whole, by number.
const TYPES: [SpelledType; 19] = [
    // 0: %a = type %b
    NAME,
    // 1 to 3: %b = type { i32, %c }
    SpelledType::Int(32),
    NAME,
    SpelledType::Struct {
        first: 0,
        count: 2,
        packed: false,
    },
    // 4, 5: %c = type [2 x %d]
    NAME,
    SpelledType::Array { count: 2, item: 4 },
    // 6: %d = type i8
    SpelledType::Int(8),
    // 7: %x = type %x
    NAME,
    // 8: %y = type %z
    NAME,
    // 9: %z = type %y
    NAME,
    // 10: %e = type %a
    NAME,
    // 11: %o = type opaque
    SpelledType::Opaque,
    SpelledType::Void,
    SpelledType::Metadata,
    SpelledType::Ptr,
    // 15: %e
    NAME,
    // 16: %x
    NAME,
    // 17: [3 x %e]
    SpelledType::Array { count: 3, item: 15 },
    // 18: <{ %e, %x, ptr }>
    SpelledType::Struct {
        first: 2,
        count: 3,
        packed: true,
    },
];

const FIELDS: [usize; 5] = [1, 2, 15, 16, 14];

/// For each name the number of what it is defined as.
const LEADS: [usize; 19] = [
    3, 1, 5, 3, 6, 5, 6, 7, 9, 8, 0, 11, 12, 13, 14, 10, 7, 17, 18,
];

#[test]
fn a_name_is_another_word_for_the_type_that_it_leads_to(rt: HostRuntime) -> Result<(), Fail> {
    let numbers = [
        3, 1, 5, 3, 6, 5, 6, 7, 8, 9, 3, 11, 12, 13, 14, 3, 16, 17, 18,
    ];
    let given = numbered(&rt, rt.alloc(), &TYPES, &FIELDS, &LEADS)?;
    assert_eq!(rt; given.numbers.as_slice(), numbers.as_slice());
    assert_eq!(rt; given.fields.as_slice(), [1, 5, 3, 16, 14].as_slice());
    Ok(())
}

#[test]
fn names_are_arrays_of_one_of_what_they_stand_for(rt: HostRuntime) -> Result<(), Fail> {
    let one = |item| IrType::Array { count: 1, item };
    let want = [
        one(3),
        IrType::Int(32),
        one(5),
        IrType::Struct {
            first: 0,
            count: 2,
            packed: false,
        },
        one(6),
        IrType::Array { count: 2, item: 6 },
        IrType::Int(8),
        one(7),
        one(8),
        one(9),
        one(3),
        IrType::Opaque,
        IrType::Void,
        IrType::Opaque,
        IrType::Ptr,
        one(3),
        one(16),
        IrType::Array { count: 3, item: 3 },
        IrType::Struct {
            first: 2,
            count: 3,
            packed: true,
        },
    ];
    let given = numbered(&rt, rt.alloc(), &TYPES, &FIELDS, &LEADS)?;
    assert_eq!(rt; given.types.as_slice(), want.as_slice());
    Ok(())
}

#[test]
fn names_are_laid_out_as_what_they_stand_for(rt: HostRuntime) -> Result<(), Fail> {
    let known = |size, align| TypeLayout::Known { size, align };
    let want = [
        known(8, 4),
        known(4, 4),
        known(2, 1),
        known(8, 4),
        known(1, 1),
        known(2, 1),
        known(1, 1),
        TypeLayout::Loop,
        TypeLayout::Loop,
        TypeLayout::Loop,
        known(8, 4),
        TypeLayout::NoSize,
        TypeLayout::NoSize,
        TypeLayout::NoSize,
        known(8, 8),
        known(8, 4),
        TypeLayout::Loop,
        known(24, 4),
        TypeLayout::Loop,
    ];
    let given = numbered(&rt, rt.alloc(), &TYPES, &FIELDS, &LEADS)?;
    let given = layouts(rt.alloc(), &given.types, &given.fields)?;
    assert_eq!(rt; given.as_slice(), want.as_slice());
    Ok(())
}
