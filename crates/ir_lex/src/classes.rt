ghost use Rattle.std.specs.Prelude.{◌≡◌, ◌≤◌, drop, length, slice_index};
ghost use Rattle.std.specs.List.{prefix_len};
ghost use Rattle.ir_core.specs.Spelling.{begins_word, begins_name, is_name_byte, is_point, is_float_byte, is_record_byte, is_inside_string, is_mark};
ghost use Rattle.ir_lex.specs.Classes.{passes};

/// A class of bytes that a token runs through.
#[derive(Clone, Copy)]
pub(crate) enum ByteClass {
    /// A decimal digit.
    Digit,
    /// A letter, a digit, `$`, `.`, `_` or `-`.
    Name,
    /// A letter, a digit, `.`, `+` or `-`.
    Float,
    /// A letter or `_`.
    Record,
    /// Any byte but `"`.
    Inside,
}

/// A letter, `$`, `.` or `_`.
pub(crate) fn begins_word(b: u8) -> bool
    ensures { result ≡ begins_word b }
{
    b.is_ascii_alphabetic() || b == b'$' || b == b'.' || b == b'_'
}

/// A letter, `$`, `.`, `_` or `-`.
pub(crate) fn begins_name(b: u8) -> bool
    ensures { result ≡ begins_name b }
{
    begins_word(b) || b == b'-'
}

fn is_name_byte(b: u8) -> bool
    ensures { result ≡ is_name_byte b }
{
    b.is_ascii_alphabetic()
        || b.is_ascii_digit()
        || b == b'$'
        || b == b'.'
        || b == b'_'
        || b == b'-'
}

/// What is between a float's digits and the rest.
pub(crate) fn is_point(b: u8) -> bool
    ensures { result ≡ is_point b }
{
    b == b'.' || b == b'x'
}

fn is_float_byte(b: u8) -> bool
    ensures { result ≡ is_float_byte b }
{
    b.is_ascii_alphabetic() || b.is_ascii_digit() || b == b'.' || b == b'+' || b == b'-'
}

/// A byte that is a mark by itself.
pub(crate) fn is_mark(b: u8) -> bool
    ensures { result ≡ is_mark b }
{
    matches!(
        b,
        b'=' | b',' | b'(' | b')' | b'[' | b']' | b'{' | b'}' | b'<' | b'>' | b'*' | b'|'
    )
}

/// Whether the byte is of the class.
fn passes(class: ByteClass, b: u8) -> bool
    ensures { result ≡ passes class b }
{
    match class {
        ByteClass::Digit => b.is_ascii_digit(),
        ByteClass::Name => is_name_byte(b),
        ByteClass::Float => is_float_byte(b),
        ByteClass::Record => b.is_ascii_alphabetic() || b == b'_',
        ByteClass::Inside => b != b'"',
    }
}

/// How many bytes at the front are of the class.
#[tactic(auto, using(crate::proofs::Fronts::front_more, crate::proofs::Fronts::front_stops, crate::proofs::Fronts::front_ends))]
pub(crate) fn front_len(class: ByteClass, bytes: &[u8]) -> usize
    ensures value { result ≡ prefix_len (passes class) bytes.now }
    ensures bound { result ≤ length bytes.now }
{
    let mut n = 0;
    while n < bytes.len() && passes(class, bytes[n]) {
        n += 1;
    }
    n
}

/// The byte at an index, 0 past the end.
pub(crate) fn byte_at(bytes: &[u8], i: usize) -> u8
    ensures { result ≡ slice_index bytes.now i }
{
    match bytes.get(i) {
        Some(b) => *b,
        None => 0,
    }
}

/// The bytes from an index on, none past the end.
pub(crate) fn rest_from(bytes: &[u8], i: usize) -> &[u8]
    ensures value { result.now ≡ drop i bytes.now }
    ensures bound { length result.now ≤ length bytes.now }
{
    &bytes[i.min(bytes.len())..]
}
