ghost use Rattle.std.specs.Prelude.{◌≡◌, ◌<◌, ◌≤◌, ◌^◌, length, map, All, IfOk};
ghost use Rattle.ir_grammar.specs.DebugNodes.{line_field, text_field, location_node, subprogram_node, file_node, other_node, node_of, kept_nodes, IsResolved};
ghost use Rattle.dbg_sites.specs.Read.{fields_in, definition_of, definitions_of, node_numbers, numbers_in, IsIndex};

use crate::definitions::{KeptNode, kept_nodes};
use crate::fields::field_token;
use crate::numbers::{location_field, node_field, places_of};
use crate::token_kinds::{is_integer_kind, is_text_kind};
use hw_base::{ByteList, OutOfMemory};
use ir_core::{Meta, Node, NodeKind, Token, Tokens};
use ir_text::{line_or_column, string_bytes};
use std::alloc::Global;
use std::collections::BTreeMap;

/// The line or column that the first field of this name writes.
fn line_field(tokens: &Tokens, fields: &[Token], name: &[u8]) -> u32
    ensures { result ≡ line_field (fields_in tokens.now.source fields.now) name.now }
{
    match field_token(tokens, fields, name) {
        None => 0,
        Some(token) => {
            if is_integer_kind(token.kind) {
                line_or_column(tokens.text_of(&token))
            } else {
                0
            }
        }
    }
}

/// The bytes of the string that is the first field of this name.
fn text_field(
    alloc: Global,
    tokens: &Tokens,
    fields: &[Token],
    name: &[u8],
) -> Result<ByteList, OutOfMemory>
    ensures { IfOk result (λ bytes. bytes ≡ text_field (fields_in tokens.now.source fields.now) name.now) }
{
    match field_token(tokens, fields, name) {
        None => Ok(ByteList::new(alloc)),
        Some(token) => {
            if is_text_kind(token.kind) {
                string_bytes(alloc, tokens.text_of(&token))
            } else {
                Ok(ByteList::new(alloc))
            }
        }
    }
}

fn location_node(
    alloc: Global,
    tokens: &Tokens,
    nodes: &[KeptNode],
    places: &BTreeMap<&[u8], u32>,
    fields: &[Token],
) -> Node
    requires { IsIndex places.now nodes.now }
    ensures { result ≡ location_node (definitions_of tokens.now.source nodes.now) (fields_in tokens.now.source fields.now) }
{
    Node {
        kind: NodeKind::Location,
        line: line_field(tokens, fields, b"line".as_slice()),
        column: line_field(tokens, fields, b"column".as_slice()),
        scope: node_field(tokens, nodes, places, fields, b"scope".as_slice()),
        inlined: location_field(tokens, nodes, places, fields, b"inlinedAt".as_slice()),
        file: None,
        name: ByteList::new(alloc),
    }
}

fn subprogram_node(
    alloc: Global,
    tokens: &Tokens,
    nodes: &[KeptNode],
    places: &BTreeMap<&[u8], u32>,
    fields: &[Token],
) -> Result<Node, OutOfMemory>
    requires { IsIndex places.now nodes.now }
    ensures { IfOk result (λ node. node ≡ subprogram_node (definitions_of tokens.now.source nodes.now) (fields_in tokens.now.source fields.now)) }
{
    Ok(Node {
        kind: NodeKind::Subprogram,
        line: 0,
        column: 0,
        scope: None,
        inlined: None,
        file: node_field(tokens, nodes, places, fields, b"file".as_slice()),
        name: text_field(alloc, tokens, fields, b"name".as_slice())?,
    })
}

fn file_node(alloc: Global, tokens: &Tokens, fields: &[Token]) -> Result<Node, OutOfMemory>
    ensures { IfOk result (λ node. node ≡ file_node (fields_in tokens.now.source fields.now)) }
{
    Ok(Node {
        kind: NodeKind::File,
        line: 0,
        column: 0,
        scope: None,
        inlined: None,
        file: None,
        name: text_field(alloc, tokens, fields, b"filename".as_slice())?,
    })
}

fn other_node(
    alloc: Global,
    tokens: &Tokens,
    nodes: &[KeptNode],
    places: &BTreeMap<&[u8], u32>,
    fields: &[Token],
) -> Node
    requires { IsIndex places.now nodes.now }
    ensures { result ≡ other_node (definitions_of tokens.now.source nodes.now) (fields_in tokens.now.source fields.now) }
{
    Node {
        kind: NodeKind::Other,
        line: 0,
        column: 0,
        scope: node_field(tokens, nodes, places, fields, b"scope".as_slice()),
        inlined: None,
        file: node_field(tokens, nodes, places, fields, b"file".as_slice()),
        name: ByteList::new(alloc),
    }
}

/// What a kept node says.
fn node_of(
    alloc: Global,
    tokens: &Tokens,
    nodes: &[KeptNode],
    places: &BTreeMap<&[u8], u32>,
    node: &KeptNode,
) -> Result<Node, OutOfMemory>
    requires { IsIndex places.now nodes.now }
    ensures { IfOk result (λ found. found ≡ node_of (definitions_of tokens.now.source nodes.now) (definition_of tokens.now.source node.now)) }
{
    match node.kind {
        NodeKind::Location => Ok(location_node(alloc, tokens, nodes, places, node.fields)),
        NodeKind::Subprogram => subprogram_node(alloc, tokens, nodes, places, node.fields),
        NodeKind::File => file_node(alloc, tokens, node.fields),
        NodeKind::Other => Ok(other_node(alloc, tokens, nodes, places, node.fields)),
    }
}

/// What the kept nodes say, in order.
fn nodes_of(
    alloc: Global,
    tokens: &Tokens,
    nodes: &[KeptNode],
    places: &BTreeMap<&[u8], u32>,
) -> Result<Meta, OutOfMemory>
    requires { IsIndex places.now nodes.now }
    ensures { IfOk result (λ meta. meta ≡ map (node_of (definitions_of tokens.now.source nodes.now)) (definitions_of tokens.now.source nodes.now)) }
{
    let mut meta = Meta::new(alloc);
    let mut rest = nodes;
    while let [node, after @ ..] = rest {
        meta.push(node_of(alloc, tokens, nodes, places, node)?)?;
        rest = after;
    }
    Ok(meta)
}

/// The metadata nodes that a text keeps, in order of the text (LLVM Language Reference, "Metadata"): each `DILocation`,
/// `DISubprogram` and `DIFile`, and each other named node with a field `scope:`. A node's number is its place here, counted
/// from 0. Any tokens will do, below 2^32 of them; a text of at most 16 MiB has far fewer. The only error is that memory ran out.
pub fn read_meta(alloc: Global, tokens: &Tokens) -> Result<Meta, OutOfMemory>
    requires { length tokens.now.tokens < 2 ^ 32 }
    ensures nodes { IfOk result (λ meta. meta ≡ kept_nodes tokens.now.source tokens.now.tokens) }
    ensures resolved { IfOk result (λ meta. All (IsResolved meta) meta) }
{
    let nodes = kept_nodes(alloc, tokens)?;
    let places = places_of(alloc, nodes.as_slice())?;
    nodes_of(alloc, tokens, nodes.as_slice(), &places)
}

/// The numbers of nodes, in order.
fn numbers_of(
    alloc: Global,
    tokens: &Tokens,
    nodes: &[KeptNode],
) -> Result<Vec<Vec<u8>>, OutOfMemory>
    ensures { IfOk result (λ numbers. numbers_in numbers.items ≡ map (λ d. d.number) (definitions_of tokens.now.source nodes.now)) }
{
    let mut numbers = Vec::new(alloc);
    let mut rest = nodes;
    while let [node, after @ ..] = rest {
        numbers.push(Vec::from_slice(alloc, node.number)?)?;
        rest = after;
    }
    Ok(numbers)
}

/// The numbers that are written of the metadata nodes that a text keeps, in order of the text, as digits without the zeros in
/// front: that of node k of `read_meta` is at k. The only error is that memory ran out.
pub fn node_numbers(alloc: Global, tokens: &Tokens) -> Result<Vec<Vec<u8>>, OutOfMemory>
    ensures numbers { IfOk result (λ numbers. numbers_in numbers.items ≡ node_numbers tokens.now.source tokens.now.tokens) }
    ensures few { IfOk result (λ numbers. length numbers.items ≤ length tokens.now.tokens) }
{
    let nodes = kept_nodes(alloc, tokens)?;
    numbers_of(alloc, tokens, nodes.as_slice())
}
