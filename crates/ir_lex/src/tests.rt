use super::*;
use ir_core::{Place, ReadError, TokenKind};
use std::alloc::Global;
use std::process::Abort;
use std::test::Fail;

mod module_text;

/// The tokens as KIND@LINE:COLUMN+LENGTH, or the refusal.
fn shown(alloc: Global, text: &[u8]) -> Result<String, Fail> {
    if text.len() > 16777216 {
        return Err(Fail::from("too long"));
    }
    let mut out = String::new(alloc);
    match lex(alloc, text) {
        Ok(tokens) => {
            for token in tokens.as_slice() {
                let (kind, place) = (token.kind, token.place);
                let (line, column) = (place.line, place.column);
                let len = tokens.text_of(token).len();
                let space = if out.is_empty() { "" } else { " " };
                out = format!(in alloc; "{out}{space}{kind:?}@{line}:{column}+{len}")?;
            }
            Ok(out)
        }
        Err(ReadError::Refused(refusal)) => {
            let (fault, line, column) = (refusal.fault, refusal.line, refusal.column);
            Ok(format!(in alloc; "{fault}@{line}:{column}")?)
        }
        Err(ReadError::OutOfMemory) => Err(Fail::from("memory")),
    }
}

fn check_rows(rt: &impl Abort, alloc: Global, rows: &[(&str, &str)]) -> Result<(), Fail> {
    for (text, want) in rows {
        let found = shown(alloc, text.as_bytes())?;
        assert_eq!(rt; found.as_str(), *want, "at {text:?}");
    }
    Ok(())
}

#[test]
fn words_begin_with_a_letter_or_a_point(rt: HostRuntime) -> Result<(), Fail> {
    let rows = [
        ("a", "Word@1:1+1"),
        ("$x", "Word@1:1+2"),
        (".5", "Word@1:1+2"),
        ("_", "Word@1:1+1"),
        ("a-b.c$d_9", "Word@1:1+9"),
        ("....", "Word@1:1+4"),
        ("..", "Word@1:1+2"),
        (". ...", "Word@1:1+1 Mark@1:3+3"),
        ("a+", "BadToken@1:2"),
        ("é", "BadToken@1:1"),
        ("a\0b", "BadToken@1:2"),
    ];
    check_rows(&rt, rt.alloc(), rows.as_slice())
}

#[test]
fn labels_end_with_a_colon_at_once(rt: HostRuntime) -> Result<(), Fail> {
    let rows = [
        ("a:", "Label@1:1+2"),
        ("1:", "Label@1:1+2"),
        ("-1:", "Label@1:1+3"),
        ("-x:", "Label@1:1+3"),
        ("1.5:", "Label@1:1+4"),
        ("...:", "Label@1:1+4"),
        ("a-b :", "BadToken@1:5"),
        ("\"a\":", "Label@1:1+4"),
        ("\"\":", "Label@1:1+3"),
        ("\"a\" :", "BadToken@1:5"),
        ("\"a\":b", "Label@1:1+4 Word@1:5+1"),
        ("a::", "BadToken@1:3"),
        ("1.e+5:", "BadToken@1:6"),
        ("c\"a\":", "BadToken@1:5"),
        (":", "BadToken@1:1"),
    ];
    check_rows(&rt, rt.alloc(), rows.as_slice())
}

#[test]
fn integers_are_digits_in_their_range(rt: HostRuntime) -> Result<(), Fail> {
    let rows = [
        ("0", "Integer@1:1+1"),
        ("007", "Integer@1:1+3"),
        ("-1", "Integer@1:1+2"),
        ("-", "BadToken@1:1"),
        ("--1", "BadToken@1:1"),
        ("1-2", "Integer@1:1+1 Integer@1:2+2"),
        ("-1.5", "Integer@1:1+2 Word@1:3+2"),
        ("12ab", "Integer@1:1+2 Word@1:3+2"),
        ("340282366920938463463374607431768211455", "Integer@1:1+39"),
        ("340282366920938463463374607431768211456", "BadToken@1:1"),
        (
            "0000340282366920938463463374607431768211455",
            "Integer@1:1+43",
        ),
        ("-170141183460469231731687303715884105728", "Integer@1:1+40"),
        ("-170141183460469231731687303715884105729", "BadToken@1:1"),
        (
            "a 999999999999999999999999999999999999999999",
            "BadToken@1:3",
        ),
        ("340282366920938463463374607431768211456:", "Label@1:1+40"),
        ("-0", "Integer@1:1+2"),
    ];
    check_rows(&rt, rt.alloc(), rows.as_slice())
}

#[test]
fn floats_have_a_point_or_an_x(rt: HostRuntime) -> Result<(), Fail> {
    let rows = [
        ("1.", "Float@1:1+2"),
        ("1.5", "Float@1:1+3"),
        ("0x", "Float@1:1+2"),
        ("0xK3FFF", "Float@1:1+7"),
        ("1.0e+00", "Float@1:1+7"),
        ("1.5-2+3.4", "Float@1:1+9"),
        ("1x.", "Float@1:1+3"),
        ("1.5$", "Float@1:1+3 Word@1:4+1"),
        ("-1.0e+00", "BadToken@1:6"),
        ("1.5_:", "Label@1:1+5"),
        ("1 .5", "Integer@1:1+1 Word@1:3+2"),
    ];
    check_rows(&rt, rt.alloc(), rows.as_slice())
}

#[test]
fn locals_are_named_by_digits_strings_or_names(rt: HostRuntime) -> Result<(), Fail> {
    let rows = [
        ("%a", "Local@1:1+2"),
        ("%1", "Local@1:1+2"),
        ("%01", "Local@1:1+3"),
        ("%-x", "Local@1:1+3"),
        ("%\"a b\"", "Local@1:1+6"),
        ("%\"a", "BadToken@1:1"),
        ("%", "BadToken@1:1"),
        ("% a", "BadToken@1:1"),
        ("%...", "Local@1:1+4"),
        ("%1a", "Local@1:1+2 Word@1:3+1"),
        ("%a:", "BadToken@1:3"),
        ("%$.", "Local@1:1+3"),
        ("%\"1\"x", "Local@1:1+4 Word@1:5+1"),
    ];
    check_rows(&rt, rt.alloc(), rows.as_slice())
}

#[test]
fn globals_are_named_like_locals(rt: HostRuntime) -> Result<(), Fail> {
    let rows = [
        ("@a", "Global@1:1+2"),
        ("@1", "Global@1:1+2"),
        ("@-x", "Global@1:1+3"),
        ("@\"a\"", "Global@1:1+4"),
        ("@\"a", "BadToken@1:1"),
        ("@", "BadToken@1:1"),
        ("@.str.1", "Global@1:1+7"),
        ("@llvm.memcpy.p0.p0.i64(", "Global@1:1+22 Mark@1:23+1"),
        ("@1a", "Global@1:1+2 Word@1:3+1"),
    ];
    check_rows(&rt, rt.alloc(), rows.as_slice())
}

#[test]
fn metadata_is_named_or_numbered(rt: HostRuntime) -> Result<(), Fail> {
    let rows = [
        ("!", "Bang@1:1+1"),
        ("!a", "MetaName@1:1+2"),
        ("!0", "MetaNumber@1:1+2"),
        ("!-x", "MetaName@1:1+3"),
        ("!0a", "MetaNumber@1:1+2 Word@1:3+1"),
        ("!{", "Bang@1:1+1 Mark@1:2+1"),
        ("!\"a\"", "Bang@1:1+1 Text@1:2+3"),
        ("!\"a", "BadToken@1:2"),
        ("!!", "Bang@1:1+1 Bang@1:2+1"),
        ("!.loop", "MetaName@1:1+6"),
        ("! 0", "Bang@1:1+1 Integer@1:3+1"),
        ("!...", "MetaName@1:1+4"),
    ];
    check_rows(&rt, rt.alloc(), rows.as_slice())
}

#[test]
fn attribute_numbers_and_debug_records(rt: HostRuntime) -> Result<(), Fail> {
    let rows = [
        ("#0", "AttrNumber@1:1+2"),
        ("#12a", "AttrNumber@1:1+3 Word@1:4+1"),
        ("#", "BadToken@1:1"),
        ("#a", "BadToken@1:1"),
        ("#dbg_", "DebugRecord@1:1+5"),
        ("#dbg_value(", "DebugRecord@1:1+10 Mark@1:11+1"),
        ("#dbg_declare_x2", "DebugRecord@1:1+14 Integer@1:15+1"),
        ("#dbg", "BadToken@1:1"),
        ("#dbg-", "BadToken@1:1"),
        ("#0:", "BadToken@1:3"),
    ];
    check_rows(&rt, rt.alloc(), rows.as_slice())
}

#[test]
fn strings_end_at_the_next_quote(rt: HostRuntime) -> Result<(), Fail> {
    let rows = [
        ("\"\"", "Text@1:1+2"),
        ("\"a\\\"", "Text@1:1+4"),
        ("\"a\\22b\"", "Text@1:1+7"),
        ("\"a\\\\\"", "Text@1:1+5"),
        ("\"a", "BadToken@1:1"),
        ("\"", "BadToken@1:1"),
        ("\"a\nb\" c", "Text@1:1+5 Word@2:4+1"),
        ("c\"\"", "Bytes@1:1+3"),
        ("c\"a\\\"x", "Bytes@1:1+5 Word@1:6+1"),
        ("c\"a", "BadToken@1:2"),
        ("c \"a\"", "Word@1:1+1 Text@1:3+3"),
        ("cc\"a\"", "Word@1:1+2 Text@1:3+3"),
        ("x=\"y;z\"", "Word@1:1+1 Mark@1:2+1 Text@1:3+5"),
    ];
    check_rows(&rt, rt.alloc(), rows.as_slice())
}

#[test]
fn marks_stand_alone(rt: HostRuntime) -> Result<(), Fail> {
    let rows = [
        (
            "=,()[]{}<>*|",
            "Mark@1:1+1 Mark@1:2+1 Mark@1:3+1 Mark@1:4+1 Mark@1:5+1 Mark@1:6+1 Mark@1:7+1 Mark@1:8+1 Mark@1:9+1 Mark@1:10+1 Mark@1:11+1 Mark@1:12+1",
        ),
        ("...", "Mark@1:1+3"),
        ("... .", "Mark@1:1+3 Word@1:5+1"),
        ("x...", "Word@1:1+4"),
        ("...x", "Word@1:1+4"),
        ("+", "BadToken@1:1"),
        ("&", "BadToken@1:1"),
        ("?", "BadToken@1:1"),
        ("a*", "Word@1:1+1 Mark@1:2+1"),
        ("<{", "Mark@1:1+1 Mark@1:2+1"),
        ("->", "BadToken@1:1"),
    ];
    check_rows(&rt, rt.alloc(), rows.as_slice())
}

#[test]
fn blanks_and_comments_separate(rt: HostRuntime) -> Result<(), Fail> {
    let rows = [
        ("", ""),
        (" ", ""),
        ("\t\r\n ", ""),
        ("; a", ""),
        (";", ""),
        ("; a\nb", "Word@2:1+1"),
        (";a\rb\nc", "Word@2:1+1"),
        ("a;b\n;c\n d", "Word@1:1+1 Word@3:2+1"),
        ("a\rb", "Word@1:1+1 Word@1:3+1"),
        ("a\r\nb", "Word@1:1+1 Word@2:1+1"),
        ("\n\n  a", "Word@3:3+1"),
        (" ;\" \n\"", "BadToken@2:1"),
        ("a ; %", "Word@1:1+1"),
    ];
    check_rows(&rt, rt.alloc(), rows.as_slice())
}

/// What each byte is alone: a word, an integer, a bang, a mark, nothing, or a bad token.
const ALONE: &str =
    "XXXXXXXXX__XX_XXXXXXXXXXXXXXXXXX_bXXwXXXmmmXmXwXiiiiiiiiiiX_mmmXXwwwwwwwwwwwwwwwwwwwwwwwwwwmXmXwXwwwwwwwwwwwwwwwwwwwwwwwwwwmmmXXXXXXXXXXXXXXXXXXXXXXXXXXXXXXXXXXXXXXXXXXXXXXXXXXXXXXXXXXXXXXXXXXXXXXXXXXXXXXXXXXXXXXXXXXXXXXXXXXXXXXXXXXXXXXXXXXXXXXXXXXXXXXXXXX";

#[test]
fn each_byte_alone(rt: HostRuntime) -> Result<(), Fail> {
    for (byte, want) in (0u8..=255).zip(ALONE.bytes()) {
        let found = shown(rt.alloc(), [byte].as_slice())?;
        let text = match want {
            b'w' => "Word@1:1+1",
            b'i' => "Integer@1:1+1",
            b'b' => "Bang@1:1+1",
            b'm' => "Mark@1:1+1",
            b'_' => "",
            _ => "BadToken@1:1",
        };
        assert_eq!(rt; found.as_str(), text, "at {byte}");
    }
    assert_eq!(rt; ALONE.len(), 256);
    Ok(())
}

#[test]
fn bytes_that_are_no_text_stand_in_strings(rt: HostRuntime) -> Result<(), Fail> {
    let found = shown(rt.alloc(), b"\"\xff\0\" a \xc3".as_slice())?;
    assert_eq!(rt; found.as_str(), "BadToken@1:8");
    let found = shown(rt.alloc(), b"\"\xff\0\" a".as_slice())?;
    assert_eq!(rt; found.as_str(), "Text@1:1+4 Word@1:6+1");
    Ok(())
}

#[test]
fn an_unended_string_is_refused_at_its_quote(rt: HostRuntime) -> Result<(), Fail> {
    let found = shown(rt.alloc(), b"source_filename = \"a".as_slice())?;
    assert_eq!(rt; found.as_str(), "BadToken@1:19");
    Ok(())
}

#[test]
fn a_whole_module_has_its_tokens(rt: HostRuntime) -> Result<(), Fail> {
    let source = module_text::LIST_MODULE.as_bytes();
    if source.len() > 16777216 {
        return Err(Fail::from("too long"));
    }
    let tokens = lex(rt.alloc(), source).ok().ok_or("refused")?;
    assert_eq!(rt; tokens.len(), 579);
    let rows = [
        (0, TokenKind::Word, 2, 1, "source_filename"),
        (
            6,
            TokenKind::Text,
            3,
            21,
            "\"e-m:e-i8:8:32-i16:16:32-i64:64-i128:128-n32:64-S128\"",
        ),
        (15, TokenKind::Global, 7, 30, "@main"),
        (19, TokenKind::AttrNumber, 7, 57, "#0"),
        (29, TokenKind::Label, 10, 1, "1:"),
        (35, TokenKind::Integer, 11, 18, "97"),
        (54, TokenKind::Mark, 12, 28, ","),
        (200, TokenKind::Mark, 24, 31, "("),
        (400, TokenKind::MetaNumber, 49, 1, "!1"),
        (450, TokenKind::Label, 52, 65, "line:"),
        (560, TokenKind::Mark, 61, 21, ","),
        (578, TokenKind::Mark, 63, 15, "}"),
    ];
    for (i, kind, line, column, text) in rows {
        let token = tokens.get(i).ok_or("no token")?;
        assert_eq!(rt; token.kind, kind, "at {i}");
        assert_eq!(rt; token.place, Place { line, column }, "at {i}");
        assert_eq!(rt; tokens.text_of(&token), text.as_bytes(), "at {i}");
    }
    Ok(())
}
