use super::*;
use ir_core::{Place, ReadError, Tokens};
use ir_grammar::{Failure, Flaw, Spellings, Terminal, terminals};
use std::alloc::Global;
use std::process::Abort;
use std::test::Fail;

mod accepted;
mod defined;
mod large;
mod module_text;
mod nested;
mod refused;
mod refused_items;
mod shown;

/// The place of the terminal from which on so many are left.
fn place_of(sentence: &[Terminal], left: usize) -> Result<Place, Fail> {
    if left > sentence.len() {
        return Err(Fail::from("no such place"));
    }
    match sentence.get(sentence.len() - left) {
        Some(terminal) => Ok(terminal.token.place),
        None => Err(Fail::from("behind the end of the text")),
    }
}

/// A failure as FAULT LINE:COLUMN.
fn shown_failure(alloc: Global, sentence: &[Terminal], failure: Failure) -> Result<String, Fail> {
    match failure {
        Failure::OutOfMemory => Err(Fail::from("memory")),
        Failure::Flawed(flaw) => {
            let fault = flaw.fault;
            let place = place_of(sentence, flaw.left)?;
            let (line, column) = (place.line, place.column);
            Ok(format!(in alloc; "{fault} {line}:{column}")?)
        }
    }
}

/// The tokens of a text that has them.
fn tokens_of<'a>(alloc: Global, text: &'a [u8]) -> Result<Tokens<'a>, Fail> {
    if text.len() > 16777216 {
        return Err(Fail::from("too long"));
    }
    match ir_lex::lex(alloc, text) {
        Ok(tokens) => Ok(tokens),
        Err(ReadError::Refused(_)) => Err(Fail::from("no tokens")),
        Err(ReadError::OutOfMemory) => Err(Fail::from("memory")),
    }
}

/// What a text spells, or its first fault.
fn answer(alloc: Global, text: &[u8]) -> Result<String, Fail> {
    if text.len() > 16777216 {
        return Err(Fail::from("too long"));
    }
    let end = ir_lex::end_of(text);
    let tokens = tokens_of(alloc, text)?;
    let sentence = terminals(alloc, &tokens, end)?;
    match read_items(alloc, &sentence) {
        Ok(found) => shown::spellings(alloc, &tokens, &found),
        Err(failure) => shown_failure(alloc, &sentence, failure),
    }
}

/// How many types, constants and items.
fn shown_counts(alloc: Global, found: &Spellings) -> Result<String, Fail> {
    let types = found.types.len();
    let constants = found.constants.len();
    let items = found.items.len();
    Ok(format!(in alloc; "{types} {constants} {items}")?)
}

/// How many types, constants and items a text spells, or its first fault.
fn counts(alloc: Global, text: &[u8]) -> Result<String, Fail> {
    if text.len() > 16777216 {
        return Err(Fail::from("too long"));
    }
    let end = ir_lex::end_of(text);
    let tokens = tokens_of(alloc, text)?;
    let sentence = terminals(alloc, &tokens, end)?;
    match read_items(alloc, &sentence) {
        Ok(found) => shown_counts(alloc, &found),
        Err(failure) => shown_failure(alloc, &sentence, failure),
    }
}

/// Each text has the answer that stands beside it.
fn check_rows(rt: &impl Abort, alloc: Global, rows: &[(&str, &str)]) -> Result<(), Fail> {
    for (text, want) in rows {
        let found = answer(alloc, text.as_bytes())?;
        assert_eq!(rt; found.as_str(), *want, "at {text:?}");
    }
    Ok(())
}
