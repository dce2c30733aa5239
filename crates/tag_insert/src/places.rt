ghost use Rattle.std.specs.Prelude.{◌≡◌, ℕ, ◌+◌, ◌<◌, ◌≤◌, ◌^◌, length, slice_index, All, IfOk, OnOk, ◌++◌};
ghost use Rattle.ir_core.specs.declared.ir_module.Module.{Module};
ghost use Rattle.ir_core.specs.Blocks.{block_holding};
ghost use Rattle.mi_code.specs.Instrumentation.{own_length, instruction_length, place_of, starts_of, later_starts};
ghost use Rattle.mi_code.specs.TagChecks.{added_code, enter_code};
ghost use Rattle.tag_insert.specs.Additions.{added_ops};
ghost use Rattle.tag_insert.specs.Functions.{EndBefore, ArePlaces};
ghost use Rattle.tag_insert.specs.SmallRegisters.{IsSmallOp, IsSmallInst};

use crate::addition::Addition;
use crate::checks::added_code;
use hw_base::{OutOfMemory, SizeList};
use ir_core::{Block, Function, Inst, Module, Op};
use std::alloc::Global;

/// How many instructions are added.
fn addition_length(addition: &Addition) -> u32
    ensures { result ≡ length (added_ops addition.now) }
{
    match addition {
        Addition::Nothing => 0,
        Addition::One(_) => 1,
        Addition::Two(_, _) => 2,
    }
}

/// How many machine instructions an instruction has by itself.
fn own_length(op: &Op) -> u32
    ensures { result ≡ own_length op.now }
{
    match op {
        Op::Phi { .. } => 0,
        _ => 1,
    }
}

/// How many machine instructions an instruction of a function whose variables have these sizes has.
fn instruction_length(m: &Module, sizes: &SizeList, inst: &Inst) -> u32
    requires { IsSmallOp inst.now.op }
    ensures length { result ≡ instruction_length m.now sizes.now inst.now }
    ensures few { result ≤ 3 }
{
    addition_length(&added_code(m, sizes, &inst.op)) + own_length(&inst.op)
}

/// How many instructions the entry of a function with these variables has.
pub fn entry_length(sizes: &SizeList) -> u32
    ensures length { result ≡ length (enter_code sizes.now) }
    ensures few { result ≤ 1 }
{
    if sizes.is_empty() { 0 } else { 1 }
}

/// The place in the code of each instruction of a function, and the place after the last one.
pub fn places_of(alloc: Global, m: &Module, f: &Function) -> Result<Vec<u32>, OutOfMemory>
    requires small { All IsSmallInst f.now.insts }
    requires few { length f.now.insts < 2 ^ 28 }
    ensures { IfOk result (λ places. ArePlaces m.now f.now (length f.now.insts + 1) places.items) }
{
    let mut places = Vec::new(alloc);
    let mut at = entry_length(&f.allocas);
    for inst in f.insts.as_slice() {
        places.push(at)?;
        at += instruction_length(m, &f.allocas, inst);
    }
    places.push(at)?;
    Ok(places)
}

/// The places where the blocks after the entry block begin.
#[tactic(auto, unfolding(mi_code::specs::Instrumentation::later_starts))]
fn later_starts(
    m: &Module,
    f: &Function,
    places: &[u32],
    blocks: &[Block],
    starts: &mut Vec<u32>,
) -> Result<(), OutOfMemory>
    requires { ArePlaces m.now f.now (length f.now.insts + 1) places.now }
    ensures { OnOk result (starts.new.items ≡ starts.old.items ++ later_starts m.now f.now blocks.now) }
{
    let mut rest = blocks;
    while let [block, after @ ..] = rest {
        let place = place_at(m, f, places, block.first);
        starts.push(place)?;
        rest = after;
    }
    Ok(())
}

/// The place of an instruction; past the last one all places are one.
fn place_at(m: &Module, f: &Function, places: &[u32], inst: u32) -> u32
    requires { ArePlaces m.now f.now (length f.now.insts + 1) places.now }
    ensures { result ≡ place_of m.now f.now inst }
{
    let i = (inst as usize).min(f.insts.len() as usize);
    places[i]
}

/// The places where blocks begin: the entry block at 0.
pub fn starts_of(
    alloc: Global,
    m: &Module,
    f: &Function,
    places: &[u32],
) -> Result<Vec<u32>, OutOfMemory>
    requires { ArePlaces m.now f.now (length f.now.insts + 1) places.now }
    ensures { IfOk result (λ starts. starts.items ≡ starts_of m.now f.now) }
{
    let mut starts = Vec::new(alloc);
    match f.blocks.as_slice() {
        [] => {}
        [_, blocks @ ..] => {
            starts.push(0)?;
            later_starts(m, f, places, blocks, &mut starts)?;
        }
    }
    Ok(starts)
}

/// The number of the block that holds instruction number i, if those before a number end before it.
pub fn block_holding(blocks: &[Block], from: usize, i: u32) -> usize
    requires before { EndBefore blocks.now from i }
    requires within { from ≤ length blocks.now }
    ensures number { result ≡ block_holding blocks.now i }
    ensures ended { EndBefore blocks.now result i }
    ensures inside { result ≤ length blocks.now }
{
    let mut number = from;
    while number < blocks.len() {
        let block = blocks[number];
        if (i as u64) < block.first as u64 + block.count as u64 {
            return number;
        }
        number += 1;
    }
    number
}
