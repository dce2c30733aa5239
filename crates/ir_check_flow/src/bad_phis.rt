ghost use Rattle.std.specs.Prelude.{◌≡◌, ◌<◌, ◌&&◌, length, IfOk};
ghost use Rattle.std.specs.List.{All, Contains};
ghost use Rattle.ir_core.specs.ResolvedBodies.{IsResolvedFunction};
ghost use Rattle.ir_check_flow.specs.First.{IsFirstOf};
ghost use Rattle.ir_check_flow.specs.Flow.{entries_of};
ghost use Rattle.ir_check_flow.specs.Homes.{block_insts};
ghost use Rattle.ir_check_flow.specs.Phis.{IsIndex, IsBadPhiWith, IsBadHere, IsBadIn, phi_places, predecessors_of, IsBadPhi};
ghost use Rattle.ir_check_flow.specs.Spreading.{lists_of};
ghost use Rattle.ir_check_flow.specs.Ways.{ways_of};

use crate::homes::block_insts;
use crate::phis::are_entries;
use crate::predecessors::predecessors_of;
use crate::tables::fill_index;
use crate::ways::ways_of;
use hw_base::OutOfMemory;
use ir_check_types::{earlier, unless};
use ir_core::{Block, Fault, Function, Inst, Module, Op, PhiEntry, Place, Refusal};
use std::alloc::Global;

fn all_hold(placed: bool, good: bool) -> bool
    ensures { result ≡ (placed && good) }
{
    placed && good
}

/// The refusal for a phi, unless it is where phis are and has the entries that it needs.
fn entries_fault(
    alloc: Global,
    table: &mut [usize],
    marks: &[usize],
    predecessors: &[usize],
    placed: bool,
    entries: &[PhiEntry],
    place: Place,
) -> Result<Option<Refusal>, OutOfMemory>
    requires marked { IsIndex marks.now predecessors.now }
    requires room { length table.old ≡ length marks.now }
    requires before { All (λ block. block < length marks.now) predecessors.now }
    requires inside { All (λ entry. entry.block < length marks.now) entries.now }
    ensures { IfOk result (λ found. IsFirstOf (IsBadPhiWith (Contains predecessors.now) placed entries.now place) found) }
{
    let good = are_entries(alloc, table, marks, predecessors, entries)?;
    let holds = all_hold(placed, good);
    Ok(unless(holds, Fault::BadPhi, place))
}

/// The refusal for an instruction that is a phi, unless it is where phis are and has the entries that it needs.
fn phi_fault(
    alloc: Global,
    table: &mut [usize],
    marks: &[usize],
    predecessors: &[usize],
    placed: bool,
    inst: &Inst,
) -> Result<Option<Refusal>, OutOfMemory>
    requires marked { IsIndex marks.now predecessors.now }
    requires room { length table.old ≡ length marks.now }
    requires before { All (λ block. block < length marks.now) predecessors.now }
    requires inside { All (λ entry. entry.block < length marks.now) (entries_of inst.now.op) }
    ensures { IfOk result (λ found. IsFirstOf (IsBadHere (Contains predecessors.now) placed inst.now) found) }
{
    match &inst.op {
        Op::Phi { entries, .. } => entries_fault(
            alloc,
            table,
            marks,
            predecessors,
            placed,
            entries.as_slice(),
            inst.place,
        ),
        _ => Ok(None),
    }
}

/// The first refusal for a phi among the instructions of a block, of which the first `phis` are where phis are.
fn phis_in(
    alloc: Global,
    table: &mut [usize],
    marks: &[usize],
    predecessors: &[usize],
    phis: usize,
    insts: &[Inst],
) -> Result<Option<Refusal>, OutOfMemory>
    requires marked { IsIndex marks.now predecessors.now }
    requires room { length table.old ≡ length marks.now }
    requires before { All (λ block. block < length marks.now) predecessors.now }
    requires inside { All (λ inst. All (λ entry. entry.block < length marks.now) (entries_of inst.op)) insts.now }
    ensures { IfOk result (λ found. IsFirstOf (IsBadIn (Contains predecessors.now) phis insts.now) found) }
{
    let mut first = None;
    for (i, inst) in insts.iter().enumerate() {
        let found = phi_fault(alloc, table, marks, predecessors, i < phis, inst)?;
        first = earlier(first, found);
    }
    Ok(first)
}

/// How many instructions of a block are where phis are: none in the entry block.
fn phi_places(b: usize, block: Block) -> usize
    ensures { result ≡ phi_places b block }
{
    if b == 0 { 0 } else { block.phis as usize }
}

/// The first refusal for a phi of a block with these predecessors.
fn block_phi(
    alloc: Global,
    m: &Module,
    f: &Function,
    table: &mut [usize],
    marks: &mut [usize],
    predecessors: &[usize],
    b: usize,
    block: Block,
) -> Result<Option<Refusal>, OutOfMemory>
    requires resolved { IsResolvedFunction m.now f.now }
    requires each { length marks.old ≡ length f.now.blocks }
    requires room { length table.old ≡ length f.now.blocks }
    requires before { All (λ from. from < length f.now.blocks) predecessors.now }
    ensures { IfOk result (λ found. IsFirstOf (IsBadIn (Contains predecessors.now) (phi_places b block) (block_insts f.now.insts block)) found) }
{
    fill_index(marks, predecessors);
    let insts = block_insts(f.insts.as_slice(), block);
    phis_in(
        alloc,
        table,
        marks,
        predecessors,
        phi_places(b, block),
        insts,
    )
}

/// The first refusal for a phi of a function, by the predecessors of its blocks.
fn phis_by(
    alloc: Global,
    m: &Module,
    f: &Function,
    table: &mut [usize],
    marks: &mut [usize],
    predecessors: &[Vec<usize>],
) -> Result<Option<Refusal>, OutOfMemory>
    requires resolved { IsResolvedFunction m.now f.now }
    requires each { length marks.old ≡ length f.now.blocks }
    requires room { length table.old ≡ length f.now.blocks }
    requires lists { lists_of predecessors.now ≡ predecessors_of (ways_of f.now) }
    ensures { IfOk result (λ found. IsFirstOf (IsBadPhi f.now) found) }
{
    let mut first = None;
    for (b, block) in f.blocks.as_slice().iter().enumerate() {
        let found = block_phi(alloc, m, f, table, marks, &predecessors[b], b, *block)?;
        first = earlier(first, found);
    }
    Ok(first)
}

/// So many zeros.
fn zeros(alloc: Global, count: usize) -> Result<Vec<usize>, OutOfMemory>
    ensures { IfOk result (λ table. length table.items ≡ count) }
{
    Ok(vec![in alloc; 0usize; count]?)
}

/// The first refusal for a phi of a function: it isn't among the first instructions of its block, it is in the entry block,
/// it lacks an entry for a predecessor, it has one for another block, or two for one block with different values. The only
/// error is that memory ran out. The time is in proportion to the ways between blocks and the entries.
pub(crate) fn bad_phi(
    alloc: Global,
    m: &Module,
    f: &Function,
) -> Result<Option<Refusal>, OutOfMemory>
    requires { IsResolvedFunction m.now f.now }
    ensures { IfOk result (λ found. IsFirstOf (IsBadPhi f.now) found) }
{
    let ways = ways_of(alloc, f)?;
    let predecessors = predecessors_of(alloc, &ways)?;
    let count = f.blocks.as_slice().len();
    let mut table = zeros(alloc, count)?;
    let mut marks = zeros(alloc, count)?;
    let found = phis_by(alloc, m, f, &mut table, &mut marks, &predecessors)?;
    Ok(found)
}
