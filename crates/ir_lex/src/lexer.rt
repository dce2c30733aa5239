ghost use Rattle.std.specs.Prelude.{◌≡◌, ◌≤◌, length, IfOk};
ghost use Rattle.hw_base.specs.declared.numbers.TheConstants.{MOST_TEXT};
ghost use Rattle.ir_core.specs.Tokenisation.{place_after};
ghost use Rattle.ir_core.specs.declared.faults.Fault.TheVariants.{BadToken};
ghost use Rattle.ir_lex.specs.Lexes.{Lexes};

use crate::cursor::Cursor;
use crate::gaps::place_behind;
use ir_core::{Fault, Place, ReadError, Refusal, Tokens};
use std::alloc::Global;

fn bad_token(place: Place) -> Refusal
    ensures fault { result.fault ≡ BadToken }
    ensures line { result.line ≡ place.line }
    ensures column { result.column ≡ place.column }
{
    Refusal {
        fault: Fault::BadToken,
        line: place.line,
        column: place.column,
    }
}

/// The tokens of a text, or its first bad token.
fn tokens_of<'a>(alloc: Global, text: &'a [u8]) -> Result<Tokens<'a>, ReadError>
    requires { length text.now ≤ MOST_TEXT }
    ensures { Lexes text.now result }
{
    let mut cursor = Cursor::new(text);
    let mut tokens = Tokens::new(alloc, text);
    cursor.skip_gap();
    while cursor.is_inside() {
        match cursor.take_token() {
            Some(token) => match tokens.push(token) {
                Ok(()) => cursor.skip_gap(),
                Err(_) => return Err(ReadError::OutOfMemory),
            },
            None => return Err(ReadError::Refused(bad_token(cursor.place()))),
        }
    }
    Ok(tokens)
}

/// The tokens of a text of at most `MOST_TEXT` bytes, in order, beside the text. The spellings are those of the LLVM Language
/// Reference; the kinds that they are sorted into are this project's choice. The error is `Refused` with `BadToken` at
/// the first byte at which no token can be read, exactly if the text isn't a row of tokens: for a string without an
/// end its first byte, for an integer outside -2^127 to 2^128 - 1 its first byte. Else memory ran out.
pub fn lex<'a>(alloc: Global, text: &'a [u8]) -> Result<Tokens<'a>, ReadError>
    requires { length text.now ≤ MOST_TEXT }
    ensures lexes { Lexes text.now result }
    ensures few { IfOk result (λ read. length read.tokens ≤ length text.now) }
{
    tokens_of(alloc, text)
}

/// The place after the last byte of a text of at most `MOST_TEXT` bytes.
pub fn end_of(text: &[u8]) -> Place
    requires { length text.now ≤ MOST_TEXT }
    ensures { result ≡ place_after text.now }
{
    place_behind(Place { line: 1, column: 1 }, text)
}
