ghost use Rattle.std.specs.Prelude.{◌≡◌, ◌<◌, ◌^◌, ◌+◌, ◌++◌, length, IfOk, OnOk};
ghost use Rattle.std.specs.List.{flat_map, prefix_len};
ghost use Rattle.ir_functions.specs.Functions.{is_phi, block_at, blocks_from, all_instructions};

use hw_base::OutOfMemory;
use ir_body_names::instructions_of;
use ir_core::{Block, BlockList};
use ir_grammar::{SpelledBlock, SpelledInstruction, SpelledOperation};
use std::alloc::Global;

/// The instructions of blocks, one block after the other.
pub(crate) fn all_instructions(
    alloc: Global,
    instructions: &[SpelledInstruction],
    blocks: &[SpelledBlock],
) -> Result<Vec<SpelledInstruction>, OutOfMemory>
    ensures { IfOk result (λ all. all.items ≡ all_instructions instructions.now blocks.now) }
{
    let mut all = Vec::new(alloc);
    let mut rest = blocks;
    while let [block, after @ ..] = rest {
        all.extend_from_slice(instructions_of(instructions, block))?;
        rest = after;
    }
    Ok(all)
}

fn is_phi(instruction: &SpelledInstruction) -> bool
    ensures { result ≡ is_phi instruction.now }
{
    matches!(instruction.operation, SpelledOperation::Phi { .. })
}

/// How many phis come first.
fn leading_phis(instructions: &[SpelledInstruction]) -> u32
    requires { length instructions.now < 2 ^ 32 }
    ensures { result ≡ prefix_len is_phi instructions.now }
{
    let mut count: u32 = 0;
    let mut rest = instructions;
    while let [instruction, after @ ..] = rest {
        if !is_phi(instruction) {
            return count;
        }
        count += 1;
        rest = after;
    }
    count
}

/// A block of instructions, from this one on.
fn block_at(first: u32, instructions: &[SpelledInstruction]) -> Block
    requires { length instructions.now < 2 ^ 32 }
    ensures { result ≡ block_at first instructions.now }
{
    Block {
        first,
        phis: leading_phis(instructions),
        count: instructions.len() as u32,
    }
}

/// The blocks of a function, which has fewer than 2^32 instructions.
pub(crate) fn blocks_from(
    alloc: Global,
    instructions: &[SpelledInstruction],
    blocks: &[SpelledBlock],
) -> Result<BlockList, OutOfMemory>
    requires { length (all_instructions instructions.now blocks.now) < 2 ^ 32 }
    ensures { IfOk result (λ row. row ≡ blocks_from instructions.now 0 blocks.now) }
{
    let mut row = BlockList::new(alloc);
    let mut first: u32 = 0;
    let mut rest = blocks;
    while let [block, after @ ..] = rest {
        let own = instructions_of(instructions, block);
        row.push(block_at(first, own))?;
        first += own.len() as u32;
        rest = after;
    }
    Ok(row)
}
