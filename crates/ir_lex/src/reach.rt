ghost use Rattle.std.specs.Prelude.{◌≡◌, ◌≤◌, ◌<◌, ◌+◌, ◌^◌, length};
ghost use Rattle.ir_lex.specs.Reach.{behind, grown, with_colon, digits_reach, quoted_reach, named_reach, reference_reach, word_reach, label_reach, integer_reach, float_reach, record_reach, bang_reach, mark_reach, is_dots, reach, longest};

use crate::classes::{
    ByteClass, begins_name, begins_word, byte_at, front_len, is_mark, is_point, rest_from,
};
use ir_core::TokenKind;

/// A token at the front of a text: its kind and its length in bytes, 0 if there is none.
#[derive(Clone, Copy)]
pub(crate) struct Found {
    pub(crate) kind: TokenKind,
    pub(crate) len: usize,
}

/// Every kind of token.
pub(crate) const KINDS: [TokenKind; 14] = [
    TokenKind::Word,
    TokenKind::Label,
    TokenKind::Integer,
    TokenKind::Float,
    TokenKind::Local,
    TokenKind::Global,
    TokenKind::MetaName,
    TokenKind::MetaNumber,
    TokenKind::Bang,
    TokenKind::AttrNumber,
    TokenKind::DebugRecord,
    TokenKind::Text,
    TokenKind::Bytes,
    TokenKind::Mark,
];

/// What follows the first byte if it is this one, else nothing.
fn behind(first: u8, bytes: &[u8]) -> &[u8]
    ensures value { result.now ≡ behind first bytes.now }
    ensures bound { length result.now ≤ length bytes.now }
{
    if byte_at(bytes, 0) == first {
        rest_from(bytes, 1)
    } else {
        &[]
    }
}

/// One more, if there is something.
fn grown(n: usize) -> usize
    requires { n < 2 ^ 63 }
    ensures { result ≡ grown n }
{
    if n > 0 { n + 1 } else { 0 }
}

/// One more, if there is something and a colon at once after it.
fn with_colon(n: usize, bytes: &[u8]) -> usize
    requires { n < 2 ^ 63 }
    ensures { result ≡ with_colon n bytes.now }
{
    if n > 0 && byte_at(bytes, n) == b':' {
        n + 1
    } else {
        0
    }
}

#[tactic(auto, unfolding(crate::specs::Reach::digits_reach))]
fn digits_reach(bytes: &[u8]) -> usize
    ensures value { result ≡ digits_reach bytes.now }
    ensures bound { result ≤ length bytes.now }
{
    front_len(ByteClass::Digit, bytes)
}

/// The length of the string at the front with its quotes, 0 if there is none or it has no end.
#[tactic(auto, unfolding(crate::specs::Reach::quoted_reach))]
fn quoted_reach(bytes: &[u8]) -> usize
    ensures value { result ≡ quoted_reach bytes.now }
    ensures bound { result ≤ length bytes.now }
{
    let rest = behind(b'"', bytes);
    let inside = front_len(ByteClass::Inside, rest);
    if inside < rest.len() { inside + 2 } else { 0 }
}

#[tactic(auto, unfolding(crate::specs::Reach::named_reach))]
fn named_reach(bytes: &[u8]) -> usize
    ensures value { result ≡ named_reach bytes.now }
    ensures bound { result ≤ length bytes.now }
{
    if begins_name(byte_at(bytes, 0)) {
        front_len(ByteClass::Name, bytes)
    } else {
        0
    }
}

#[tactic(auto, unfolding(crate::specs::Reach::reference_reach))]
fn reference_reach(bytes: &[u8]) -> usize
    ensures value { result ≡ reference_reach bytes.now }
    ensures bound { result ≤ length bytes.now }
{
    digits_reach(bytes).max(quoted_reach(bytes).max(named_reach(bytes)))
}

/// Whether the name bytes at the front are `...` alone.
fn is_dots(names: usize, bytes: &[u8]) -> bool
    ensures { result ≡ is_dots names bytes.now }
{
    names == 3 && bytes.starts_with(b"...")
}

#[tactic(auto, unfolding(crate::specs::Reach::word_reach))]
fn word_reach(names: usize, bytes: &[u8]) -> usize
    ensures { result ≡ word_reach names bytes.now }
{
    if begins_word(byte_at(bytes, 0)) && !is_dots(names, bytes) {
        names
    } else {
        0
    }
}

#[tactic(auto, unfolding(crate::specs::Reach::label_reach))]
fn label_reach(names: usize, bytes: &[u8]) -> usize
    requires short { length bytes.now < 2 ^ 32 }
    requires names { names ≤ length bytes.now }
    ensures { result ≡ label_reach names bytes.now }
{
    with_colon(names, bytes).max(with_colon(quoted_reach(bytes), bytes))
}

#[tactic(auto, unfolding(crate::specs::Reach::integer_reach))]
fn integer_reach(bytes: &[u8]) -> usize
    requires { length bytes.now < 2 ^ 32 }
    ensures { result ≡ integer_reach bytes.now }
{
    digits_reach(bytes).max(grown(digits_reach(behind(b'-', bytes))))
}

#[tactic(auto, unfolding(crate::specs::Reach::float_reach))]
fn float_reach(bytes: &[u8]) -> usize
    requires { length bytes.now < 2 ^ 32 }
    ensures { result ≡ float_reach bytes.now }
{
    let n = digits_reach(bytes);
    if n > 0 && is_point(byte_at(bytes, n)) {
        n + 1 + front_len(ByteClass::Float, rest_from(bytes, n + 1))
    } else {
        0
    }
}

#[tactic(auto, unfolding(crate::specs::Reach::record_reach))]
fn record_reach(bytes: &[u8]) -> usize
    requires { length bytes.now < 2 ^ 32 }
    ensures { result ≡ record_reach bytes.now }
{
    if bytes.starts_with(b"#dbg_") {
        5 + front_len(ByteClass::Record, rest_from(bytes, 5))
    } else {
        0
    }
}

#[tactic(auto, unfolding(crate::specs::Reach::bang_reach))]
fn bang_reach(bytes: &[u8]) -> usize
    ensures { result ≡ bang_reach bytes.now }
{
    if byte_at(bytes, 0) == b'!' { 1 } else { 0 }
}

#[tactic(auto, unfolding(crate::specs::Reach::mark_reach))]
fn mark_reach(bytes: &[u8]) -> usize
    ensures { result ≡ mark_reach bytes.now }
{
    if bytes.starts_with(b"...") {
        3
    } else if is_mark(byte_at(bytes, 0)) {
        1
    } else {
        0
    }
}

/// How many bytes the longest token of this kind at the front has, 0 if there is none. `names` is the number of name
/// bytes at the front.
fn reach(kind: TokenKind, names: usize, bytes: &[u8]) -> usize
    requires short { length bytes.now < 2 ^ 32 }
    requires names { names ≤ length bytes.now }
    ensures { result ≡ reach kind names bytes.now }
{
    match kind {
        TokenKind::Word => word_reach(names, bytes),
        TokenKind::Label => label_reach(names, bytes),
        TokenKind::Integer => integer_reach(bytes),
        TokenKind::Float => float_reach(bytes),
        TokenKind::Local => grown(reference_reach(behind(b'%', bytes))),
        TokenKind::Global => grown(reference_reach(behind(b'@', bytes))),
        TokenKind::MetaName => grown(named_reach(behind(b'!', bytes))),
        TokenKind::MetaNumber => grown(digits_reach(behind(b'!', bytes))),
        TokenKind::Bang => bang_reach(bytes),
        TokenKind::AttrNumber => grown(digits_reach(behind(b'#', bytes))),
        TokenKind::DebugRecord => record_reach(bytes),
        TokenKind::Text => quoted_reach(bytes),
        TokenKind::Bytes => grown(quoted_reach(behind(b'c', bytes))),
        TokenKind::Mark => mark_reach(bytes),
    }
}

/// The longest token at the front, of any kind.
#[tactic(auto, unfolding(crate::specs::Reach::longest, crate::specs::Reach::longer))]
pub(crate) fn longest(names: usize, bytes: &[u8]) -> Found
    requires short { length bytes.now < 2 ^ 32 }
    requires names { names ≤ length bytes.now }
    ensures { result ≡ longest names bytes.now }
{
    let mut best = Found {
        kind: TokenKind::Word,
        len: 0,
    };
    for kind in KINDS {
        let len = reach(kind, names, bytes);
        if len > best.len {
            best = Found { kind, len };
        }
    }
    best
}
