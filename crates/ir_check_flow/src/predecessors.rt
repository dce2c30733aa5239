ghost use Rattle.std.specs.Prelude.{◌≡◌, ◌<◌, [], length, replicate, OnOk, IfOk};
ghost use Rattle.std.specs.List.{All};
ghost use Rattle.ir_check_flow.specs.Phis.{add_predecessor, add_predecessors, predecessors_from, predecessors_of};
ghost use Rattle.ir_check_flow.specs.Spreading.{AreWays, lists_of};

use hw_base::OutOfMemory;
use std::alloc::Global;

/// Adds a predecessor of a block.
fn add_predecessor(lists: &mut [Vec<usize>], from: usize, to: u32) -> Result<(), OutOfMemory>
    requires { to < length lists.old }
    ensures { OnOk result (lists_of lists.new ≡ add_predecessor (lists_of lists.old) from to) }
{
    Ok(lists[to as usize].push(from)?)
}

/// Adds a predecessor of several blocks.
fn add_predecessors(
    lists: &mut [Vec<usize>],
    from: usize,
    targets: &[u32],
) -> Result<(), OutOfMemory>
    requires { All (λ to. to < length lists.old) targets.now }
    ensures { OnOk result (lists_of lists.new ≡ add_predecessors (lists_of lists.old) from targets.now) }
{
    for to in targets {
        add_predecessor(lists, from, *to)?;
    }
    Ok(())
}

/// Adds all predecessors, by the blocks to which each block leads.
fn add_all(lists: &mut [Vec<usize>], ways: &[Vec<u32>]) -> Result<(), OutOfMemory>
    requires { AreWays (length lists.old) (lists_of ways.now) }
    ensures { OnOk result (lists_of lists.new ≡ predecessors_from (lists_of lists.old) 0 (lists_of ways.now)) }
{
    for (from, targets) in ways.iter().enumerate() {
        add_predecessors(lists, from, targets)?;
    }
    Ok(())
}

/// So many empty lists.
fn empty_lists(alloc: Global, count: usize) -> Result<Vec<Vec<usize>>, OutOfMemory>
    ensures { IfOk result (λ lists. lists_of lists.items ≡ replicate count []) }
{
    let mut lists = Vec::new(alloc);
    'made: while lists.len() < count {
        lists.push(Vec::new(alloc))?;
    }
    Ok(lists)
}

/// The blocks that lead to each block, by those to which each block leads. The only error is that memory ran out.
pub(crate) fn predecessors_of(
    alloc: Global,
    ways: &[Vec<u32>],
) -> Result<Vec<Vec<usize>>, OutOfMemory>
    requires { AreWays (length ways.now) (lists_of ways.now) }
    ensures { IfOk result (λ lists. lists_of lists.items ≡ predecessors_of (lists_of ways.now)) }
{
    let mut lists = empty_lists(alloc, ways.len())?;
    add_all(lists.as_mut_slice(), ways)?;
    Ok(lists)
}
