ghost use Rattle.std.specs.Prelude.{◌≡◌, ◌<◌, ◌^◌, ℕ, List, length, IfOk, OnOk, Some, None, if◌then◌else◌};
ghost use Rattle.std.specs.Str.{bytes_eq};
ghost use Rattle.ir_grammar.specs.DebugFields.{lexeme};
ghost use Rattle.ir_grammar.specs.DebugNodes.{node_named, node_field, is_location_at, location_field};
ghost use Rattle.dbg_sites.specs.Read.{fields_in, definitions_of, place_or, place_in, IsIndex};

use crate::definitions::KeptNode;
use crate::fields::field_token;
use crate::token_kinds::is_meta_number_kind;
use hw_base::OutOfMemory;
use ir_core::{NodeKind, Token, Tokens};
use ir_text::number_behind_bang;
use std::alloc::Global;
use std::collections::BTreeMap;

/// Adds the place of a number that has none yet.
fn insert_first<'a>(
    places: &mut BTreeMap<&'a [u8], u32>,
    number: &'a [u8],
    place: u32,
) -> Result<(), OutOfMemory>
    ensures { OnOk result ((q : List ℕ) → place_in places.new q ≡ place_or (place_in places.old q) (if bytes_eq q number.now then Some place else None)) }
{
    if !places.contains_key(number) {
        places.insert(number, place)?;
    }
    Ok(())
}

/// For each number the place of the first node with it.
pub(crate) fn places_of<'a>(
    alloc: Global,
    nodes: &[KeptNode<'a>],
) -> Result<BTreeMap<&'a [u8], u32>, OutOfMemory>
    requires { length nodes.now < 2 ^ 32 }
    ensures { IfOk result (λ places. IsIndex places nodes.now) }
{
    let mut places = BTreeMap::new(alloc);
    let mut place: u32 = 0;
    let mut rest = nodes;
    while let [node, after @ ..] = rest {
        insert_first(&mut places, node.number, place)?;
        place += 1;
        rest = after;
    }
    Ok(places)
}

/// The kept node that a token names.
fn node_named(
    tokens: &Tokens,
    nodes: &[KeptNode],
    places: &BTreeMap<&[u8], u32>,
    token: &Token,
) -> Option<u32>
    requires { IsIndex places.now nodes.now }
    ensures { result ≡ node_named (definitions_of tokens.now.source nodes.now) (lexeme tokens.now.source token.now) }
{
    if is_meta_number_kind(token.kind) {
        places
            .get(number_behind_bang(tokens.text_of(token)))
            .copied()
    } else {
        None
    }
}

/// The kept node that the first field of this name names.
pub(crate) fn node_field(
    tokens: &Tokens,
    nodes: &[KeptNode],
    places: &BTreeMap<&[u8], u32>,
    fields: &[Token],
    name: &[u8],
) -> Option<u32>
    requires { IsIndex places.now nodes.now }
    ensures { result ≡ node_field (definitions_of tokens.now.source nodes.now) (fields_in tokens.now.source fields.now) name.now }
{
    match field_token(tokens, fields, name) {
        None => None,
        Some(token) => node_named(tokens, nodes, places, &token),
    }
}

fn is_location_at(tokens: &Tokens, nodes: &[KeptNode], k: u32) -> bool
    ensures { result ≡ is_location_at (definitions_of tokens.now.source nodes.now) k }
{
    match nodes.get(k as usize) {
        None => false,
        Some(node) => matches!(node.kind, NodeKind::Location),
    }
}

/// The location that the first field of this name names.
pub(crate) fn location_field(
    tokens: &Tokens,
    nodes: &[KeptNode],
    places: &BTreeMap<&[u8], u32>,
    fields: &[Token],
    name: &[u8],
) -> Option<u32>
    requires { IsIndex places.now nodes.now }
    ensures { result ≡ location_field (definitions_of tokens.now.source nodes.now) (fields_in tokens.now.source fields.now) name.now }
{
    match node_field(tokens, nodes, places, fields, name) {
        None => None,
        Some(k) => {
            if is_location_at(tokens, nodes, k) {
                Some(k)
            } else {
                None
            }
        }
    }
}
