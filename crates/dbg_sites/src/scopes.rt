ghost use Rattle.std.specs.Prelude.{◌≡◌, length, slice_get};
ghost use Rattle.ir_core.specs.Scopes.{next_scope, next_call, scopes_end, calls_end, chains_end, cycle_at, cycle_in, first_cycle, scopes_fault};
ghost use Rattle.dbg_sites.specs.Cycles.{IsScopesAnswer};

use ir_core::{DbgRef, Fault, Function, Inst, Module, Node, NodeKind, Place, Refusal};

/// The node at which the chain of scopes goes on.
fn next_scope(nodes: &[Node], k: u32) -> Option<u32>
    ensures { result ≡ next_scope (slice_get nodes.now k) }
{
    match nodes.get(k as usize) {
        None => None,
        Some(node) => match node.kind {
            NodeKind::Subprogram => None,
            _ => node.scope,
        },
    }
}

/// The location of the call by which a location was inlined.
fn next_call(nodes: &[Node], k: u32) -> Option<u32>
    ensures { result ≡ next_call (slice_get nodes.now k) }
{
    match nodes.get(k as usize) {
        None => None,
        Some(node) => node.inlined,
    }
}

/// Whether the chain of scopes from a node ends.
#[tactic(auto, unfolding(ir_core::specs::Scopes::scopes_end))]
fn scopes_end(nodes: &[Node], from: Option<u32>) -> bool
    ensures { result ≡ scopes_end (length nodes.now) nodes.now from }
{
    let mut at = from;
    let mut rest = nodes;
    while let [_, after @ ..] = rest {
        match at {
            None => return true,
            Some(k) => at = next_scope(nodes, k),
        }
        rest = after;
    }
    at.is_none()
}

/// Whether all chains from a location end.
#[tactic(auto, unfolding(ir_core::specs::Scopes::calls_end))]
fn chains_end(nodes: &[Node], location: u32) -> bool
    ensures { result ≡ chains_end nodes.now location }
{
    let mut at = Some(location);
    let mut rest = nodes;
    while let [_, after @ ..] = rest {
        match at {
            None => return true,
            Some(k) => {
                if !scopes_end(nodes, at) {
                    return false;
                }
                at = next_call(nodes, k);
            }
        }
        rest = after;
    }
    at.is_none()
}

/// The place of the debug location, if a chain from it never ends.
fn cycle_at(nodes: &[Node], dbg: Option<DbgRef>) -> Option<Place>
    ensures { result ≡ cycle_at nodes.now dbg }
{
    match dbg {
        None => None,
        Some(dbg) => {
            if chains_end(nodes, dbg.node) {
                None
            } else {
                Some(dbg.place)
            }
        }
    }
}

/// The first such place among instructions.
fn cycle_in(nodes: &[Node], insts: &[Inst]) -> Option<Place>
    ensures { result ≡ cycle_in nodes.now insts.now }
{
    let mut rest = insts;
    while let [inst, after @ ..] = rest {
        let place = cycle_at(nodes, inst.dbg);
        if place.is_some() {
            return place;
        }
        rest = after;
    }
    None
}

/// The first such place among functions.
fn first_cycle(nodes: &[Node], functions: &[Function]) -> Option<Place>
    ensures { result ≡ first_cycle nodes.now functions.now }
{
    let mut rest = functions;
    while let [function, after @ ..] = rest {
        let place = cycle_in(nodes, function.insts.as_slice());
        if place.is_some() {
            return place;
        }
        rest = after;
    }
    None
}

/// Refuses a module with `MetaCycle` if a chain of scopes or of inlined calls from the debug location of an instruction never
/// ends, at the first such location in order of the text. The chain of scopes of a location ends at its first subprogram, and
/// those of all locations of a chain of inlined calls count. It takes no memory. Its time is in proportion to the instructions
/// with a location, times the length of their chains.
pub fn check_scopes(module: &Module) -> Result<(), Refusal>
    ensures { IsScopesAnswer (scopes_fault «module».now) result }
{
    match first_cycle(module.meta.as_slice(), module.functions.as_slice()) {
        None => Ok(()),
        Some(place) => Err(Refusal {
            fault: Fault::MetaCycle,
            line: place.line,
            column: place.column,
        }),
    }
}
