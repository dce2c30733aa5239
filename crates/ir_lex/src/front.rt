ghost use Rattle.std.specs.Prelude.{◌≡◌, ◌≤◌, ◌<◌, ◌^◌, length, nat_le, MatchOption};
ghost use Rattle.std.specs.List.{AllPass, prefix_len};
ghost use Rattle.std.specs.Char.{is_ascii_digit};
ghost use Rattle.std.specs.Str.Parse.{digits_value};
ghost use Rattle.ir_core.specs.Spelling.{Spells, is_in_range, is_name_byte};
ghost use Rattle.ir_core.specs.declared.token.TokenKind.TheVariants.{Integer};
ghost use Rattle.ir_lex.specs.Front.{IsFront, HasNoFront};

use crate::reach::{Found, longest};
use ir_core::TokenKind;

/// Whether the number that the digits write is at most the limit.
fn is_at_most(digits: &[u8], limit: u128) -> bool
    requires digits { AllPass is_ascii_digit digits.now }
    requires limit { 9 ≤ limit }
    ensures { result ≡ nat_le (digits_value 10 digits.now) limit }
{
    let mut value: u128 = 0;
    for b in digits {
        let digit = u128::from(*b - b'0');
        if value > (limit - digit) / 10 {
            return false;
        }
        value = value * 10 + digit;
    }
    true
}

/// Whether an integer lies from -2^127 to 2^128 - 1.
fn is_in_range(bytes: &[u8]) -> bool
    requires { Spells Integer bytes.now }
    ensures { result ≡ is_in_range bytes.now }
{
    match bytes {
        [] => true,
        [first, digits @ ..] => {
            if *first == b'-' {
                is_at_most(digits, 1 << 127)
            } else {
                is_at_most(bytes, u128::MAX)
            }
        }
    }
}

/// The token at the front of the text: the longest of any kind, none if there is none or if it is an integer out of
/// range. `names` is the number of name bytes at the front.
pub(crate) fn token_at_front(names: usize, bytes: &[u8]) -> Option<Found>
    requires short { length bytes.now < 2 ^ 32 }
    requires names { names ≡ prefix_len is_name_byte bytes.now }
    ensures { MatchOption result (HasNoFront bytes.now) (IsFront bytes.now) }
{
    let found = longest(names, bytes);
    if found.len == 0 {
        return None;
    }
    match found.kind {
        TokenKind::Integer => {
            if is_in_range(&bytes[..found.len]) {
                Some(found)
            } else {
                None
            }
        }
        _ => Some(found),
    }
}
