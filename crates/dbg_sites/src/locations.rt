ghost use Rattle.std.specs.Prelude.{◌≡◌, ◌∷◌, ◌++◌, [], length, Some, IfOk};
ghost use Rattle.std.specs.Option.{option_copied};
ghost use Rattle.ir_core.specs.Scopes.{next_scope};
ghost use Rattle.dbg_sites.specs.Frames.{node_at, scopes_from, function_in, file_in, file_name, unplaced, placed, frame_named, frame_at, frames_from, frames_by};

use crate::frames::{Frame, Frames, Spot};
use hw_base::{ByteList, OutOfMemory};
use ir_core::{Node, NodeKind};
use std::alloc::Global;

/// The node with this number.
fn node_at(nodes: &[Node], number: Option<u32>) -> Option<&Node>
    ensures { option_copied result ≡ node_at nodes.now number }
{
    match number {
        None => None,
        Some(k) => nodes.get(k as usize),
    }
}

/// The node to which a chain of scopes goes on.
fn next_node<'a>(nodes: &'a [Node], node: &Node) -> Option<&'a Node>
    ensures { option_copied result ≡ node_at nodes.now (next_scope (Some node.now)) }
{
    match node.kind {
        NodeKind::Subprogram => None,
        _ => node_at(nodes, node.scope),
    }
}

/// The name of the first subprogram of a location's chain of scopes.
#[tactic(auto, unfolding(crate::specs::Frames::scopes_from))]
fn function_in<'a>(nodes: &'a [Node], location: &'a Node) -> &'a [u8]
    ensures { result.now ≡ function_in (scopes_from (length nodes.now) nodes.now (Some location.now)) }
{
    let mut at = Some(location);
    let mut rest = nodes;
    while let [_, after @ ..] = rest {
        match at {
            None => return b"".as_slice(),
            Some(node) => match node.kind {
                NodeKind::Subprogram => return node.name.as_slice(),
                _ => at = node_at(nodes, node.scope),
            },
        }
        rest = after;
    }
    b"".as_slice()
}

/// The number of the first file of a location's chain of scopes.
#[tactic(auto, unfolding(crate::specs::Frames::scopes_from))]
fn file_in(nodes: &[Node], location: &Node) -> Option<u32>
    ensures { result ≡ file_in (scopes_from (length nodes.now) nodes.now (Some location.now)) }
{
    let mut at = Some(location);
    let mut rest = nodes;
    while let [_, after @ ..] = rest {
        match at {
            None => return None,
            Some(node) => {
                if node.file.is_some() {
                    return node.file;
                }
                at = next_node(nodes, node);
            }
        }
        rest = after;
    }
    None
}

/// The file name that the node with this number gives.
fn file_name(nodes: &[Node], number: Option<u32>) -> &[u8]
    ensures { result.now ≡ file_name (node_at nodes.now number) }
{
    match node_at(nodes, number) {
        None => b"".as_slice(),
        Some(node) => match node.kind {
            NodeKind::File => node.name.as_slice(),
            _ => b"".as_slice(),
        },
    }
}

/// The same bytes in memory of their own.
fn copied(alloc: Global, bytes: &[u8]) -> Result<ByteList, OutOfMemory>
    ensures { IfOk result (λ list. list ≡ bytes.now) }
{
    Ok(ByteList::from_vec(Vec::from_slice(alloc, bytes)?))
}

fn unplaced(alloc: Global, func: &[u8]) -> Result<Frame, OutOfMemory>
    ensures { IfOk result (λ frame. frame ≡ unplaced func.now) }
{
    Ok(Frame {
        func: copied(alloc, func)?,
        place: None,
    })
}

fn placed(alloc: Global, location: &Node, name: &[u8], file: &[u8]) -> Result<Frame, OutOfMemory>
    ensures { IfOk result (λ frame. frame ≡ placed location.now name.now file.now) }
{
    let func = copied(alloc, name)?;
    let spot = Spot {
        file: copied(alloc, file)?,
        line: location.line,
        column: location.column,
    };
    Ok(Frame {
        func,
        place: Some(spot),
    })
}

/// The frame of a location by the names that its scopes give.
fn frame_named(
    alloc: Global,
    func: &[u8],
    location: &Node,
    name: &[u8],
    file: &[u8],
) -> Result<Frame, OutOfMemory>
    ensures { IfOk result (λ frame. frame ≡ frame_named func.now location.now name.now file.now) }
{
    match (name, file) {
        ([], _) => unplaced(alloc, func),
        (_, []) => unplaced(alloc, func),
        _ => placed(alloc, location, name, file),
    }
}

#[tactic(auto, unfolding(crate::specs::Frames::frame_at))]
fn frame_at(
    alloc: Global,
    nodes: &[Node],
    func: &[u8],
    location: &Node,
) -> Result<Frame, OutOfMemory>
    ensures { IfOk result (λ frame. frame ≡ frame_at (length nodes.now) nodes.now func.now location.now) }
{
    let name = function_in(nodes, location);
    let file = file_name(nodes, file_in(nodes, location));
    frame_named(alloc, func, location, name, file)
}

/// The frames of a location and of the calls by which it was inlined.
#[tactic(auto, unfolding(crate::specs::Frames::frames_from))]
fn frames_from(
    alloc: Global,
    nodes: &[Node],
    func: &[u8],
    location: &Node,
) -> Result<Frames, OutOfMemory>
    ensures { IfOk result (λ frames. frames ≡ frames_from (length nodes.now) (length nodes.now) nodes.now func.now (Some location.now)) }
{
    let mut frames = Frames::new(alloc);
    let mut at = Some(location);
    let mut rest = nodes;
    while let [_, after @ ..] = rest {
        match at {
            None => return Ok(frames),
            Some(level) => {
                frames.push(frame_at(alloc, nodes, func, level)?)?;
                at = node_at(nodes, level.inlined);
            }
        }
        rest = after;
    }
    Ok(frames)
}

/// The frames of an instruction of a function with this name, by the number of its location's node.
pub(crate) fn frames_by(
    alloc: Global,
    nodes: &[Node],
    func: &[u8],
    location: Option<u32>,
) -> Result<Frames, OutOfMemory>
    ensures { IfOk result (λ frames. frames ≡ frames_by (length nodes.now) nodes.now func.now (node_at nodes.now location)) }
{
    match node_at(nodes, location) {
        None => {
            let mut frames = Frames::new(alloc);
            frames.push(unplaced(alloc, func)?)?;
            Ok(frames)
        }
        Some(location) => frames_from(alloc, nodes, func, location),
    }
}
