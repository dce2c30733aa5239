ghost use Rattle.std.specs.Prelude.{◌≡◌, ◌++◌, length, OnOk, IfOk, map};
ghost use Rattle.std.specs.Option.{option_map, option_to_list};
ghost use Rattle.ir_grammar.specs.DebugFields.{lexemes};
ghost use Rattle.ir_grammar.specs.DebugNodes.{kind_named, is_kept, named_node, behind_distinct, definition_at, definitions};
ghost use Rattle.dbg_sites.specs.Read.{fields_in, definition_of, definitions_of};

use crate::fields::first_field;
use crate::token_kinds::{
    depth_behind, is_distinct, is_meta_name_kind, is_meta_number_kind, is_the,
};
use hw_base::OutOfMemory;
use ir_core::{NodeKind, Token, Tokens};
use ir_text::number_behind_bang;
use std::alloc::Global;

/// A kept node: its number without the zeros in front, its kind, and the tokens after its bracket.
#[derive(Clone, Copy)]
pub(crate) struct KeptNode<'a> {
    pub(crate) number: &'a [u8],
    pub(crate) kind: NodeKind,
    pub(crate) fields: &'a [Token],
}

fn kind_named(name: &[u8]) -> NodeKind
    ensures { result ≡ kind_named name.now }
{
    if name == b"!DILocation".as_slice() {
        NodeKind::Location
    } else if name == b"!DISubprogram".as_slice() {
        NodeKind::Subprogram
    } else if name == b"!DIFile".as_slice() {
        NodeKind::File
    } else {
        NodeKind::Other
    }
}

fn is_kept(tokens: &Tokens, kind: NodeKind, fields: &[Token]) -> bool
    ensures { result ≡ is_kept kind (fields_in tokens.now.source fields.now) }
{
    match kind {
        NodeKind::Location => true,
        NodeKind::Subprogram => true,
        NodeKind::File => true,
        NodeKind::Other => first_field(tokens, fields, b"scope".as_slice()).is_some(),
    }
}

/// The kept node `!Name( .. )` at the front.
fn named_node<'a>(tokens: &Tokens, number: &'a [u8], node: &'a [Token]) -> Option<KeptNode<'a>>
    ensures { option_map (definition_of tokens.now.source) result ≡ named_node number.now (lexemes tokens.now.source node.now) }
{
    match node {
        [] => None,
        [_] => None,
        [name, bracket, fields @ ..] => {
            if !is_meta_name_kind(name.kind) || !is_the(tokens, bracket, b'(') {
                return None;
            }
            let kind = kind_named(tokens.text_of(name));
            if is_kept(tokens, kind, fields) {
                Some(KeptNode {
                    number,
                    kind,
                    fields,
                })
            } else {
                None
            }
        }
    }
}

fn behind_distinct<'a>(tokens: &Tokens, node: &'a [Token]) -> &'a [Token]
    ensures { lexemes tokens.now.source result.now ≡ behind_distinct (lexemes tokens.now.source node.now) }
{
    match node {
        [] => node,
        [first, rest @ ..] => {
            if is_distinct(tokens, first) {
                rest
            } else {
                node
            }
        }
    }
}

/// The kept node that is defined at the front.
fn definition_at<'a>(tokens: &'a Tokens<'a>, items: &'a [Token]) -> Option<KeptNode<'a>>
    ensures { option_map (definition_of tokens.now.source) result ≡ definition_at (lexemes tokens.now.source items.now) }
{
    match items {
        [] => None,
        [_] => None,
        [first, equals, rest @ ..] => {
            if is_meta_number_kind(first.kind) && is_the(tokens, equals, b'=') {
                let number = number_behind_bang(tokens.text_of(first));
                named_node(tokens, number, behind_distinct(tokens, rest))
            } else {
                None
            }
        }
    }
}

/// Adds the kept node that is defined at the front, if there is one there.
fn push_definition<'a>(
    found: &mut Vec<KeptNode<'a>>,
    tokens: &'a Tokens<'a>,
    items: &'a [Token],
) -> Result<(), OutOfMemory>
    ensures { OnOk result (definitions_of tokens.now.source found.new.items ≡ definitions_of tokens.now.source found.old.items ++ option_to_list (definition_at (lexemes tokens.now.source items.now))) }
{
    match definition_at(tokens, items) {
        None => Ok(()),
        Some(node) => match found.push(node) {
            Ok(()) => Ok(()),
            Err(_) => Err(OutOfMemory),
        },
    }
}

/// The kept nodes in order of the text.
pub(crate) fn kept_nodes<'a>(
    alloc: Global,
    tokens: &'a Tokens<'a>,
) -> Result<Vec<KeptNode<'a>>, OutOfMemory>
    ensures { IfOk result (λ nodes. definitions_of tokens.now.source nodes.items ≡ definitions 0 (lexemes tokens.now.source tokens.now.tokens)) }
{
    let items = tokens.as_slice();
    let _count = items.len();
    let mut found = Vec::new(alloc);
    let mut depth: u64 = 0;
    let mut rest = items;
    while let [token, after @ ..] = rest {
        if depth == 0 {
            push_definition(&mut found, tokens, rest)?;
        }
        depth = depth_behind(tokens, token, depth);
        rest = after;
    }
    Ok(found)
}
