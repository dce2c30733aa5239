use super::*;
use std::test::Fail;

fn token(kind: TokenKind, from: u32, to: u32) -> Token {
    Token {
        kind,
        from,
        to,
        place: Place { line: 1, column: 1 },
    }
}

#[test]
fn a_token_has_its_bytes_in_the_text(rt: HostRuntime) -> Result<(), Fail> {
    let mut tokens = Tokens::new(rt.alloc(), b"br label %1".as_slice());
    assert!(rt; tokens.is_empty());
    assert_eq!(rt; tokens.get(0), None);
    let place = Place {
        line: 1,
        column: 10,
    };
    let local = Token {
        kind: TokenKind::Local,
        from: 9,
        to: 11,
        place,
    };
    assert_eq!(rt; tokens.push(local), Ok(()));
    assert_eq!(rt; tokens.len(), 1);
    assert_eq!(rt; tokens.get(0), Some(local));
    assert_eq!(rt; tokens.as_slice().len(), 1);
    assert_eq!(rt; tokens.text_of(&local), b"%1".as_slice());
    assert_eq!(rt; tokens.source(), b"br label %1".as_slice());
    Ok(())
}

#[test]
fn a_token_of_another_text_has_the_bytes_that_are_there(rt: HostRuntime) -> Result<(), Fail> {
    let tokens = Tokens::new(rt.alloc(), b"br label %1".as_slice());
    let rows = [
        (3, 8, b"label".as_slice()),
        (9, 11, b"%1".as_slice()),
        (9, 40, b"%1".as_slice()),
        (40, 50, b"".as_slice()),
        (5, 3, b"".as_slice()),
    ];
    for (from, to, want) in rows {
        let found = token(TokenKind::Word, from, to);
        assert_eq!(rt; tokens.text_of(&found), want, "from {from} to {to}");
    }
    Ok(())
}
