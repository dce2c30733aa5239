ghost use Rattle.std.specs.Prelude.{◌≡◌, ◌<◌, [], length, slice_index, slice_index_or, OnOk, IfOk};
ghost use Rattle.std.specs.List.{All};
ghost use Rattle.ir_check_flow.specs.Spreading.{lists_of, without, AreWays, AreOpen, IsReached, AreReached};

use hw_base::OutOfMemory;
use std::alloc::Global;

/// Adds questions to those that have come to a block. If there are new ones the block is work to do.
fn reach_one(
    reach: &mut [u128],
    work: &mut Vec<u32>,
    to: u32,
    bits: u128,
) -> Result<(), OutOfMemory>
    requires { to < length reach.old }
    ensures { OnOk result (IsReached to bits reach.old work.old.items reach.new work.new.items) }
{
    let before = reach[to as usize];
    let after = before | bits;
    if after != before {
        work.push(to)?;
        reach[to as usize] = after;
    }
    Ok(())
}

/// Adds questions to those that have come to several blocks.
fn reach_all(
    reach: &mut [u128],
    work: &mut Vec<u32>,
    targets: &[u32],
    bits: u128,
) -> Result<(), OutOfMemory>
    requires { All (λ to. to < length reach.old) targets.now }
    ensures { OnOk result (AreReached targets.now bits reach.old work.old.items reach.new work.new.items) }
{
    for to in targets {
        reach_one(reach, work, *to, bits)?;
    }
    Ok(())
}

/// Passes what has come to a block and isn't answered there on to the blocks that it leads to.
fn spread_from(
    ways: &[Vec<u32>],
    answered: &[u128],
    reach: &mut [u128],
    work: &mut Vec<u32>,
    from: usize,
) -> Result<(), OutOfMemory>
    requires here { from < length reach.old }
    requires answers { length answered.now ≡ length reach.old }
    requires each { length ways.now ≡ length reach.old }
    requires inside { AreWays (length reach.old) (lists_of ways.now) }
    ensures { OnOk result (AreReached (slice_index_or (lists_of ways.now) from []) (without (slice_index reach.old from) (slice_index answered.now from)) reach.old work.old.items reach.new work.new.items) }
{
    let bits = reach[from] & !answered[from];
    reach_all(reach, work, &ways[from], bits)
}

/// For each block the questions that are open there: those of `asked` that come to it by some path on which no block before
/// answers them. `ways` has the blocks to which each block leads, and `answered` the questions that it answers. The only
/// error is that memory ran out. A block is visited once for each question that comes to it at most.
pub(crate) fn spread(
    alloc: Global,
    ways: &[Vec<u32>],
    answered: &[u128],
    asked: u128,
) -> Result<Vec<u128>, OutOfMemory>
    requires some { 0 < length ways.now }
    requires same { length answered.now ≡ length ways.now }
    requires inside { AreWays (length ways.now) (lists_of ways.now) }
    ensures { IfOk result (λ reach. AreOpen (lists_of ways.now) answered.now asked reach.items) }
{
    let mut reach = vec![in alloc; 0u128; ways.len()]?;
    reach[0] = asked;
    let mut work = Vec::new(alloc);
    work.push(0u32)?;
    while let Some(next) = work.pop() {
        spread_from(
            ways,
            answered,
            reach.as_mut_slice(),
            &mut work,
            next as usize,
        )?;
    }
    Ok(reach)
}
