ghost use Rattle.std.specs.Prelude.{◌≡◌, ◌≤◌, length, All, IfOk};
ghost use Rattle.hw_base.specs.declared.numbers.TheConstants.{MOST_TEXT};
ghost use Rattle.ir_core.specs.declared.ir_module.Declare.{Declare};
ghost use Rattle.ir_core.specs.Externals.{IsThere};
ghost use Rattle.ir_core.specs.ResolvedBodies.{IsResolved};
ghost use Rattle.ir_core.specs.Scopes.{HasEndingScopes};
ghost use Rattle.ir_core.specs.Tokenisation.{IsTokenisation};
ghost use Rattle.ir_grammar.specs.Spelled.{store_of};
ghost use Rattle.ir_read_top.specs.Texts.{refusal_at, place_with, flaw_error, IsGathered, IsRead, Gathers, Cuts, ReadsText};

use crate::assembly::outline_of;
use crate::bodies::read_functions;
use crate::declared::libs_of;
use hw_base::MOST_TEXT;
use ir_core::{Fault, Limit, Module, Place, ReadError, Refusal, Tokens};
use ir_grammar::{Failure, Spellings, Terminal, terminals};
use ir_lex::{end_of, lex};
use ir_names::resolve_names;
use ir_read_items::read_items;
use std::alloc::Global;

/// The fault at a place.
pub(crate) fn refusal_at(fault: Fault, place: Place) -> Refusal
    ensures { result ≡ refusal_at fault place }
{
    Refusal {
        fault,
        line: place.line,
        column: place.column,
    }
}

/// The place of the token from which on there are so many, or the end.
fn place_with(end: Place, tokens: &[Terminal], left: usize) -> Place
    ensures { result ≡ place_with end tokens.now left }
{
    match tokens.get(tokens.len().saturating_sub(left)) {
        Some(token) => token.token.place,
        None => end,
    }
}

/// The error for a flaw of these tokens.
fn flaw_error(end: Place, tokens: &[Terminal], failure: Failure) -> ReadError
    ensures { result ≡ flaw_error end tokens.now failure }
{
    match failure {
        Failure::Flawed(flaw) => {
            ReadError::Refused(refusal_at(flaw.fault, place_with(end, tokens, flaw.left)))
        }
        Failure::OutOfMemory => ReadError::OutOfMemory,
    }
}

/// The module of what was read, or the first fault of a later phase.
fn read_found(alloc: Global, tokens: &Tokens, found: &Spellings) -> Result<Module, ReadError>
    requires short { length tokens.now.source ≤ MOST_TEXT }
    requires few { length tokens.now.tokens ≤ MOST_TEXT }
    requires cut { IsTokenisation tokens.now.source tokens.now.tokens }
    requires gathered { IsGathered tokens.now.source tokens.now.tokens (store_of found.now) }
    ensures { ReadsText tokens.now.source result }
{
    let libs = libs_of(alloc, tokens, &found.items)?;
    let names = resolve_names(alloc, tokens.source(), &found.items, found)?;
    let outline = outline_of(alloc, tokens, found, &names.references, &libs)?;
    read_functions(
        alloc,
        tokens,
        found,
        &libs,
        &names.references,
        outline,
        names.fault,
    )
}

/// The tokens of a text as the grammar sees them, with the end of the text after them, or the text's first fault.
fn sentence_of(alloc: Global, text: &[u8]) -> Result<Vec<Terminal>, ReadError>
    requires { length text.now ≤ MOST_TEXT }
    ensures { Cuts text.now result }
{
    match lex(alloc, text) {
        Ok(tokens) => {
            let sentence = terminals(alloc, &tokens, end_of(text))?;
            Ok(sentence)
        }
        Err(error) => Err(error),
    }
}

/// What a text spells, or its first fault. The tokens are let go with this.
fn gathered(alloc: Global, text: &[u8]) -> Result<Spellings, ReadError>
    requires { length text.now ≤ MOST_TEXT }
    ensures { Gathers text.now result }
{
    match sentence_of(alloc, text) {
        Ok(sentence) => match read_items(alloc, &sentence) {
            Ok(found) => Ok(found),
            Err(failure) => Err(flaw_error(end_of(text), &sentence, failure)),
        },
        Err(error) => Err(error),
    }
}

/// The module of what a text spells, or its first fault. The text is cut into tokens once more, for its metadata: beside
/// what the grammar needs they would take more memory than all else.
fn read_spelled(alloc: Global, text: &[u8], found: &Spellings) -> Result<Module, ReadError>
    requires short { length text.now ≤ MOST_TEXT }
    requires spelled { IsRead text.now (store_of found.now) }
    ensures { ReadsText text.now result }
{
    match lex(alloc, text) {
        Ok(tokens) => read_found(alloc, &tokens, found),
        Err(error) => Err(error),
    }
}

/// The module of a text that isn't too long, or its first fault.
fn read_short(alloc: Global, text: &[u8]) -> Result<Module, ReadError>
    requires { length text.now ≤ MOST_TEXT }
    ensures { ReadsText text.now result }
{
    match gathered(alloc, text) {
        Ok(found) => read_spelled(alloc, text, &found),
        Err(error) => Err(error),
    }
}

/// A text of LLVM IR read into a module (LLVM Language Reference). The accepted spelling is this project's profile of it. The
/// error is `Refused` with the first fault of the first phase that has one: TooLarge if the text has more than 16 MiB; BadToken
/// if no token can be read; BadSyntax, Unsupported, or TooLarge for nesting, at the first token with which no module begins;
/// Unsupported, Unknown or Twice at the first name with a fault, outside the bodies of functions or in one; NoMain at the end of
/// the text, if no `i32 @main()` or `i32 @main(i32, ptr)` is defined; MetaCycle at the first debug location from which a chain
/// of scopes or of inlined calls never ends. Line and column count from 1, columns in bytes. Else memory ran out. Each number in
/// the module names a thing that is there, and each declared function is there at its width.
pub fn read(alloc: Global, text: &[u8]) -> Result<Module, ReadError>
    ensures text { ReadsText text.now result }
    ensures resolved { IfOk result IsResolved }
    ensures known { IfOk result (λ m. All (λ (d : Declare). IsThere d.lib) m.declares) }
    ensures scopes { IfOk result HasEndingScopes }
{
    if text.len() as u64 > MOST_TEXT {
        let start = Place { line: 1, column: 1 };
        return Err(ReadError::Refused(refusal_at(Fault::TooLarge(Limit::Text), start)));
    }
    read_short(alloc, text)
}
