use super::*;
use ir_body_names::{Names, beside_body};
use ir_core::{NodeKind, ReadError, Token, TokenKind, Tokens};
use ir_grammar::{SpelledParameter, Terminal, terminals};
use ir_names::{Index, behind_sigil, text_of};
use ir_read_body::{Body, read_body};
use std::alloc::Global;
use std::process::Abort;
use std::test::Fail;

mod faults;
mod resolved;

/// What stands before the body in a text of these tests: the parameters of its function, where `_` has no name, the functions
/// that are defined and, after `declare`, those that are declared, and the numbers of metadata nodes: locations, and, after
/// `other`, nodes of another kind.
#[derive(Drop)]
struct Header {
    parameters: Vec<SpelledParameter>,
    functions: Vec<Vec<u8>>,
    declares: Vec<Vec<u8>>,
    nodes: Vec<Vec<u8>>,
    kinds: Vec<NodeKind>,
}

/// Takes one token of a header, after this one.
fn take_token(
    alloc: Global,
    header: &mut Header,
    source: &[u8],
    before: &[u8],
    token: &Token,
) -> Result<(), Fail> {
    let text = text_of(source, token);
    match token.kind {
        TokenKind::Local => header.parameters.push(SpelledParameter {
            ty: 0,
            name: Some(*token),
        })?,
        TokenKind::Global => {
            let key = ir_names::global_key(alloc, source, token)?;
            if before == b"declare".as_slice() {
                header.declares.push(key)?;
            } else {
                header.functions.push(key)?;
            }
        }
        TokenKind::MetaNumber => {
            header
                .nodes
                .push(Vec::from_slice(alloc, ir_text::number_behind_bang(text))?)?;
            if before == b"other".as_slice() {
                header.kinds.push(NodeKind::Other)?;
            } else {
                header.kinds.push(NodeKind::Location)?;
            }
        }
        _ => {
            if text == b"_".as_slice() {
                header
                    .parameters
                    .push(SpelledParameter { ty: 0, name: None })?;
            }
        }
    }
    Ok(())
}

/// The header before the body, and the index of the body's first token.
fn header_of(alloc: Global, source: &[u8], tokens: &[Token]) -> Result<(Header, usize), Fail> {
    let mut header = Header {
        parameters: Vec::new(alloc),
        functions: Vec::new(alloc),
        declares: Vec::new(alloc),
        nodes: Vec::new(alloc),
        kinds: Vec::new(alloc),
    };
    let mut before: &[u8] = &[];
    for (i, token) in tokens.iter().enumerate() {
        let text = text_of(source, token);
        if text == b"{".as_slice() {
            return Ok((header, i));
        }
        take_token(alloc, &mut header, source, before, token)?;
        before = text;
    }
    Err(Fail::from("no body"))
}

/// The tokens of a text that has them.
fn tokens_of<'a>(alloc: Global, text: &'a [u8]) -> Result<Tokens<'a>, Fail> {
    if text.len() > 16777216 {
        return Err(Fail::from("too long"));
    }
    match ir_lex::lex(alloc, text) {
        Ok(tokens) => Ok(tokens),
        Err(ReadError::Refused(_)) => Err(Fail::from("no tokens")),
        Err(ReadError::OutOfMemory) => Err(Fail::from("memory")),
    }
}

/// The body that begins at a token.
fn body_at(alloc: Global, tokens: &Tokens, text: &[u8], at: usize) -> Result<Body, Fail> {
    if text.len() > 16777216 {
        return Err(Fail::from("too long"));
    }
    let sentence = terminals(alloc, tokens, ir_lex::end_of(text))?;
    if at > sentence.len() {
        return Err(Fail::from("no body"));
    }
    match read_body(alloc, &sentence, at) {
        Ok(body) => Ok(body),
        Err(_) => Err(Fail::from("no body")),
    }
}
