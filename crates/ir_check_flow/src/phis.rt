ghost use Rattle.std.specs.Prelude.{◌≡◌, ◌<◌, ◌↔◌, length, IsTrue, IfOk};
ghost use Rattle.std.specs.List.{All, Contains, list_all};
ghost use Rattle.ir_check_flow.specs.Phis.{blocks_of, is_same_operand, agrees, IsIndex, AreEntries};

use crate::tables::{fill_index, has_key};
use hw_base::OutOfMemory;
use ir_core::{Operand, PhiEntry};
use std::alloc::Global;

/// Whether two operands are the same, as they are kept.
fn is_same_operand(a: Operand, b: Operand) -> bool
    ensures { result ≡ is_same_operand a b }
{
    match (a, b) {
        (Operand::Reg(r), Operand::Reg(s)) => r == s,
        (Operand::Int(n), Operand::Int(k)) => n == k,
        (Operand::Null, Operand::Null) => true,
        (
            Operand::Global { global, off },
            Operand::Global {
                global: other,
                off: at,
            },
        ) => global == other && off == at,
        _ => false,
    }
}

/// The blocks of the entries of a phi.
fn entry_blocks(alloc: Global, entries: &[PhiEntry]) -> Result<Vec<usize>, OutOfMemory>
    ensures { IfOk result (λ blocks. blocks.items ≡ blocks_of entries.now) }
{
    let blocks = entries
        .iter()
        .map(|entry| entry.block as usize)
        .collect(alloc)?;
    Ok(blocks)
}

/// Whether all of some keys are in the list whose places the table has.
fn has_keys(table: &[usize], keys: &[usize], wanted: &[usize]) -> bool
    requires index { IsIndex table.now keys.now }
    requires inside { All (λ key. key < length table.now) wanted.now }
    ensures { IsTrue result ↔ All (Contains keys.now) wanted.now }
{
    for key in wanted {
        if !has_key(table, keys, *key) {
            return false;
        }
    }
    true
}

/// Whether an entry has the value of the one for its block whose place the table has.
fn agrees(table: &[usize], entries: &[PhiEntry], entry: &PhiEntry) -> bool
    ensures { result ≡ agrees table.now entries.now entry.now }
{
    let at = match table.get(entry.block as usize) {
        Some(at) => *at,
        None => 0,
    };
    match entries.get(at) {
        Some(other) => is_same_operand(other.value.operand, entry.value.operand),
        None => false,
    }
}

/// Whether entries for one block have one value, by the places of the blocks' entries.
fn has_one_value_each(table: &[usize], entries: &[PhiEntry]) -> bool
    ensures { result ≡ list_all (agrees table.now entries.now) entries.now }
{
    entries.iter().all(|entry| agrees(table, entries, entry))
}

fn all_hold(each: bool, only: bool, same: bool) -> bool
    ensures { IsTrue result ↔ (IsTrue each × IsTrue only × IsTrue same) }
{
    each && only && same
}

/// Whether a phi has the entries that it needs, by the blocks of its entries.
fn have_entries(
    table: &mut [usize],
    marks: &[usize],
    predecessors: &[usize],
    blocks: &[usize],
    entries: &[PhiEntry],
) -> bool
    requires marked { IsIndex marks.now predecessors.now }
    requires room { length table.old ≡ length marks.now }
    requires before { All (λ block. block < length marks.now) predecessors.now }
    requires inside { All (λ block. block < length marks.now) blocks.now }
    requires blocks_are { blocks.now ≡ blocks_of entries.now }
    ensures { IsTrue result ↔ AreEntries (Contains predecessors.now) entries.now }
{
    fill_index(table, blocks);
    let each = has_keys(table, blocks, predecessors);
    let only = has_keys(marks, predecessors, blocks);
    let same = has_one_value_each(table, entries);
    all_hold(each, only, same)
}

/// Whether a phi has the entries that it needs: one for each predecessor of its block, and no other. `marks` has the places of
/// the predecessors, and `table` room for those of the entries. The only error is that memory ran out.
pub(crate) fn are_entries(
    alloc: Global,
    table: &mut [usize],
    marks: &[usize],
    predecessors: &[usize],
    entries: &[PhiEntry],
) -> Result<bool, OutOfMemory>
    requires marked { IsIndex marks.now predecessors.now }
    requires room { length table.old ≡ length marks.now }
    requires before { All (λ block. block < length marks.now) predecessors.now }
    requires inside { All (λ entry. entry.block < length marks.now) entries.now }
    ensures { IfOk result (λ good. IsTrue good ↔ AreEntries (Contains predecessors.now) entries.now) }
{
    let blocks = entry_blocks(alloc, entries)?;
    let good = have_entries(table, marks, predecessors, &blocks, entries);
    Ok(good)
}
