ghost use Rattle.std.specs.Prelude.{◌≡◌, ◌∷◌, map, IfOk};
ghost use Rattle.ir_check_flow.specs.Spreading.{lists_of};
ghost use Rattle.ir_check_flow.specs.Ways.{targets_of, block_targets, ways_of};

use hw_base::OutOfMemory;
use ir_core::{Block, Case, Function, Inst, Op};
use std::alloc::Global;

/// The blocks to which a switch leads.
fn switch_targets(alloc: Global, other: u32, cases: &[Case]) -> Result<Vec<u32>, OutOfMemory>
    ensures { IfOk result (λ targets. targets.items ≡ other ∷ map (λ case. case.block) cases.now) }
{
    let mut targets = Vec::new(alloc);
    targets.push(other)?;
    for case in cases {
        targets.push(case.block)?;
    }
    Ok(targets)
}

/// The blocks to which an operation leads.
fn targets_of(alloc: Global, op: &Op) -> Result<Vec<u32>, OutOfMemory>
    ensures { IfOk result (λ targets. targets.items ≡ targets_of op.now) }
{
    match op {
        Op::Br { block } => Ok(vec![in alloc; *block]?),
        Op::BrIf { yes, no, .. } => Ok(vec![in alloc; *yes, *no]?),
        Op::Switch { other, cases, .. } => switch_targets(alloc, *other, cases.as_slice()),
        _ => Ok(Vec::new(alloc)),
    }
}

/// The blocks to which the last instruction of a block leads.
fn block_targets(alloc: Global, insts: &[Inst], block: Block) -> Result<Vec<u32>, OutOfMemory>
    ensures { IfOk result (λ targets. targets.items ≡ block_targets insts.now block) }
{
    let end = block.first as usize + block.count as usize;
    match insts.get(end.saturating_sub(1)) {
        Some(inst) => targets_of(alloc, &inst.op),
        None => Ok(Vec::new(alloc)),
    }
}

/// The blocks to which each block of a function leads.
pub(crate) fn ways_of(alloc: Global, f: &Function) -> Result<Vec<Vec<u32>>, OutOfMemory>
    ensures { IfOk result (λ ways. lists_of ways.items ≡ ways_of f.now) }
{
    let mut ways = Vec::new(alloc);
    for block in f.blocks.as_slice() {
        ways.push(block_targets(alloc, f.insts.as_slice(), *block)?)?;
    }
    Ok(ways)
}
