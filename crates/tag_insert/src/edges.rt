ghost use Rattle.std.specs.Prelude.{◌≡◌, ◌+◌, ◌<◌, ◌^◌, ◌++◌, length, All, List, IfOk, IfSome, take, drop, map, slice_index};
ghost use Rattle.ir_core.specs.Blocks.{entry_from, phi_entry, phis_of};
ghost use Rattle.mi_code.specs.EdgeMoves.{phis_by, phis_at, phi_move, phi_moves, edge_to, case_edges};
ghost use Rattle.tag_insert.specs.SmallRegisters.{IsSmall, IsSmallEntry, IsSmallOp, IsSmallInst};

use crate::operands::{operand_of, result_register};
use crate::types::constant_number;
use hw_base::OutOfMemory;
use ir_core::{Case, Function, Inst, Op, PhiEntry, Placed};
use mi_code::{Edge, MiCase, MiCaseList, Move, MoveList};
use std::alloc::Global;

/// The operand of the first entry for a block.
#[tactic(auto, unfolding(ir_core::specs::Blocks::entry_from))]
fn entry_from(from: u32, entries: &[PhiEntry]) -> Option<Placed>
    requires { All IsSmallEntry entries.now }
    ensures found { result ≡ entry_from from entries.now }
    ensures small { IfSome result IsSmall }
{
    for entry in entries {
        if entry.block == from {
            return Some(entry.value);
        }
    }
    None
}

/// The operand that a phi takes if control comes from a block.
fn phi_entry(from: u32, op: &Op) -> Option<Placed>
    requires { IsSmallOp op.now }
    ensures found { result ≡ phi_entry from op.now }
    ensures small { IfSome result IsSmall }
{
    match op {
        Op::Phi { entries, .. } => entry_from(from, entries.as_slice()),
        _ => None,
    }
}

/// The phis of the block with a number.
fn phis_at(f: &Function, block: u32) -> &[Inst]
    requires { All IsSmallInst f.now.insts }
    ensures found { result.now ≡ phis_at f.now block }
    ensures small { All IsSmallInst result.now }
{
    match f.blocks.get(block as u64) {
        Some(block) => {
            let insts = f.insts.as_slice();
            let rest = &insts[(block.first as usize).min(insts.len())..];
            &rest[..(block.phis as usize).min(rest.len())]
        }
        None => &[],
    }
}

/// The moves of phis in order, if control comes from a block.
#[tactic(auto, unfolding(mi_code::specs::EdgeMoves::phi_moves))]
fn phi_moves(alloc: Global, f: &Function, from: u32, phis: &[Inst]) -> Result<MoveList, OutOfMemory>
    requires few { length f.now.regs < 2 ^ 30 }
    requires small { All IsSmallInst phis.now }
    ensures { IfOk result (λ moves. moves ≡ phi_moves f.now from phis.now) }
{
    let mut moves = MoveList::new(alloc);
    for phi in phis {
        match phi_entry(from, &phi.op) {
            Some(value) => {
                let to = result_register(f, phi.result);
                moves.push(Move {
                    to,
                    value: operand_of(&value),
                })?;
            }
            None => {}
        }
    }
    Ok(moves)
}

/// The edge from one block to another.
pub fn edge_to(
    alloc: Global,
    f: &Function,
    starts: &[u32],
    from: u32,
    to: u32,
) -> Result<Edge, OutOfMemory>
    requires few { length f.now.regs < 2 ^ 30 }
    requires small { All IsSmallInst f.now.insts }
    ensures { IfOk result (λ edge. edge ≡ edge_to f.now starts.now from to) }
{
    let place = match starts.get(to as usize) {
        Some(place) => *place,
        None => 0,
    };
    let moves = phi_moves(alloc, f, from, phis_at(f, to))?;
    Ok(Edge { place, moves })
}

/// The cases of a switch.
#[tactic(auto, unfolding(mi_code::specs::EdgeMoves::case_edges))]
pub fn case_edges(
    alloc: Global,
    f: &Function,
    starts: &[u32],
    from: u32,
    cases: &[Case],
) -> Result<MiCaseList, OutOfMemory>
    requires few { length f.now.regs < 2 ^ 30 }
    requires small { All IsSmallInst f.now.insts }
    ensures { IfOk result (λ edges. edges ≡ case_edges f.now starts.now from cases.now) }
{
    let mut edges = MiCaseList::new(alloc);
    let mut rest = cases;
    while let [case, after @ ..] = rest {
        let edge = edge_to(alloc, f, starts, from, case.block)?;
        edges.push(MiCase {
            value: constant_number(case.value.operand),
            edge,
        })?;
        rest = after;
    }
    Ok(edges)
}
