ghost use Rattle.std.specs.Prelude.{◌≡◌, ◌+◌, ◌*◌, ◌<◌, IfOk, IsTrue};
ghost use Rattle.std.specs.Str.{bytes_eq};
ghost use Rattle.std.specs.Char.{is_ascii_hexdigit, digit_value};
ghost use Rattle.ir_text.specs.TokenText.{hexadecimal_byte, escaped_byte, front_byte, unescaped};

use hw_base::{ByteList, OutOfMemory};
use std::alloc::Global;

/// A byte that a string stands for, and with how many bytes more than one it is written.
#[derive(Clone, Copy)]
struct StringByte {
    byte: u8,
    more: u64,
}

const PLAIN_BACKSLASH: StringByte = StringByte {
    byte: b'\\',
    more: 0,
};

fn hex_digit(b: u8) -> u8
    requires { IsTrue (is_ascii_hexdigit b) }
    ensures value { result ≡ digit_value b }
    ensures bound { result < 16 }
{
    if b <= b'9' {
        b - b'0'
    } else if b <= b'F' {
        b - b'A' + 10
    } else {
        b - b'a' + 10
    }
}

/// What a `\` stands for before this byte and those.
fn hexadecimal_byte(high: u8, rest: &[u8]) -> StringByte
    ensures byte { result.byte ≡ (hexadecimal_byte high rest.now).byte }
    ensures more { result.more ≡ (hexadecimal_byte high rest.now).more }
{
    match rest {
        [] => PLAIN_BACKSLASH,
        [low, ..] => {
            if high.is_ascii_hexdigit() && low.is_ascii_hexdigit() {
                StringByte {
                    byte: 16 * hex_digit(high) + hex_digit(*low),
                    more: 2,
                }
            } else {
                PLAIN_BACKSLASH
            }
        }
    }
}

/// What a `\` stands for before these bytes.
fn escaped_byte(rest: &[u8]) -> StringByte
    ensures byte { result.byte ≡ (escaped_byte rest.now).byte }
    ensures more { result.more ≡ (escaped_byte rest.now).more }
{
    match rest {
        [] => PLAIN_BACKSLASH,
        [b, after @ ..] => {
            if *b == b'\\' {
                StringByte {
                    byte: b'\\',
                    more: 1,
                }
            } else {
                hexadecimal_byte(*b, after)
            }
        }
    }
}

/// What a byte stands for before those.
fn front_byte(b: u8, rest: &[u8]) -> StringByte
    ensures byte { result.byte ≡ (front_byte b rest.now).byte }
    ensures more { result.more ≡ (front_byte b rest.now).more }
{
    if b == b'\\' {
        escaped_byte(rest)
    } else {
        StringByte { byte: b, more: 0 }
    }
}

/// The bytes that these stand for.
pub(crate) fn unescape(alloc: Global, bytes: &[u8]) -> Result<ByteList, OutOfMemory>
    ensures { IfOk result (λ out. out ≡ unescaped bytes.now) }
{
    let mut out = ByteList::new(alloc);
    let mut taken = 0;
    let mut rest = bytes;
    while let [b, after @ ..] = rest {
        if taken == 0 {
            let found = front_byte(*b, after);
            out.push(found.byte)?;
            taken = found.more;
        } else {
            taken -= 1;
        }
        rest = after;
    }
    Ok(out)
}

/// Whether the bytes that these stand for are a name.
pub(crate) fn unescapes_to(bytes: &[u8], name: &[u8]) -> bool
    ensures { result ≡ bytes_eq (unescaped bytes.now) name.now }
{
    let mut taken = 0;
    let mut wanted = name;
    let mut rest = bytes;
    while let [b, after @ ..] = rest {
        if taken == 0 {
            let found = front_byte(*b, after);
            match wanted {
                [] => return false,
                [first, others @ ..] => {
                    if found.byte != *first {
                        return false;
                    }
                    wanted = others;
                }
            }
            taken = found.more;
        } else {
            taken -= 1;
        }
        rest = after;
    }
    wanted.is_empty()
}
