ghost use Rattle.std.specs.Prelude.{◌≡◌, ◌++◌, ◌<◌, ◌^◌, length, OnOk, IfOk};
ghost use Rattle.std.specs.Option.{option_to_list};
ghost use Rattle.ir_check_flow.specs.Flow.{operands_of, entries_of};
ghost use Rattle.ir_check_flow.specs.Homes.{homes_of};
ghost use Rattle.ir_check_flow.specs.Questions.{ask_in_block, ask_at_end, operand_questions, entry_questions, placed_questions, phi_questions, inst_questions, questions_in, questions_from, questions_of};

use crate::home::Home;
use crate::homes::{block_insts, home_of, homes_of};
use crate::question::Question;
use hw_base::OutOfMemory;
use ir_core::{Block, Function, Inst, Op, Operand, PhiEntry, Place, Placed};
use std::alloc::Global;

/// Where uses of registers are looked for: in a function, whose registers are defined in these places.
#[derive(Clone, Copy)]
pub struct Uses<'a> {
    pub f: &'a Function,
    pub homes: &'a [Home],
}

/// Asks for a register at an instruction of a block, unless it is defined before in that block.
fn ask_in_block(
    found: &mut Vec<Question>,
    home: Home,
    block: usize,
    inst: usize,
    place: Place,
) -> Result<(), OutOfMemory>
    ensures { OnOk result (found.new.items ≡ found.old.items ++ ask_in_block home block inst place) }
{
    if home.block == block && home.inst < inst {
        return Ok(());
    }
    let question = Question {
        home: home.block,
        at: block,
        place,
    };
    Ok(found.push(question)?)
}

/// Asks for a register at the end of a block, unless it is defined in that block.
fn ask_at_end(
    found: &mut Vec<Question>,
    home: Home,
    block: usize,
    place: Place,
) -> Result<(), OutOfMemory>
    ensures { OnOk result (found.new.items ≡ found.old.items ++ ask_at_end home block place) }
{
    if home.block == block {
        return Ok(());
    }
    let question = Question {
        home: home.block,
        at: block,
        place,
    };
    Ok(found.push(question)?)
}

/// The question of an operand at an instruction of a block.
fn add_operand(
    found: &mut Vec<Question>,
    uses: Uses,
    block: usize,
    inst: usize,
    placed: &Placed,
) -> Result<(), OutOfMemory>
    ensures { OnOk result (found.new.items ≡ found.old.items ++ operand_questions uses.entry.f.now uses.entry.homes.now block inst placed.now.place placed.now.operand) }
{
    match placed.operand {
        Operand::Reg(register) => {
            if register < uses.f.params {
                return Ok(());
            }
            let home = home_of(uses.f, uses.homes, register);
            ask_in_block(found, home, block, inst, placed.place)
        }
        _ => Ok(()),
    }
}

/// The question of an entry of a phi.
fn add_entry(found: &mut Vec<Question>, uses: Uses, entry: &PhiEntry) -> Result<(), OutOfMemory>
    ensures { OnOk result (found.new.items ≡ found.old.items ++ entry_questions uses.entry.f.now uses.entry.homes.now entry.now.block entry.now.value.place entry.now.value.operand) }
{
    match entry.value.operand {
        Operand::Reg(register) => {
            if register < uses.f.params {
                return Ok(());
            }
            let home = home_of(uses.f, uses.homes, register);
            ask_at_end(found, home, entry.block as usize, entry.value.place)
        }
        _ => Ok(()),
    }
}

/// The questions of several operands.
fn add_operands(
    found: &mut Vec<Question>,
    uses: Uses,
    block: usize,
    inst: usize,
    operands: &[Placed],
) -> Result<(), OutOfMemory>
    ensures { OnOk result (found.new.items ≡ found.old.items ++ placed_questions uses.entry.f.now uses.entry.homes.now block inst operands.now) }
{
    for placed in operands {
        add_operand(found, uses, block, inst, placed)?;
    }
    Ok(())
}

/// The questions of the entries of a phi.
fn add_entries(
    found: &mut Vec<Question>,
    uses: Uses,
    entries: &[PhiEntry],
) -> Result<(), OutOfMemory>
    ensures { OnOk result (found.new.items ≡ found.old.items ++ phi_questions uses.entry.f.now uses.entry.homes.now entries.now) }
{
    for entry in entries {
        add_entry(found, uses, entry)?;
    }
    Ok(())
}

/// The questions of an operand, if there is one.
fn add_some(
    found: &mut Vec<Question>,
    uses: Uses,
    block: usize,
    inst: usize,
    operand: &Option<Placed>,
) -> Result<(), OutOfMemory>
    ensures { OnOk result (found.new.items ≡ found.old.items ++ placed_questions uses.entry.f.now uses.entry.homes.now block inst (option_to_list operand.now)) }
{
    match operand {
        Some(placed) => add_operand(found, uses, block, inst, placed),
        None => Ok(()),
    }
}

/// The questions of the operands that an operation reads where it is.
fn add_read(
    found: &mut Vec<Question>,
    uses: Uses,
    block: usize,
    inst: usize,
    op: &Op,
) -> Result<(), OutOfMemory>
    ensures { OnOk result (found.new.items ≡ found.old.items ++ placed_questions uses.entry.f.now uses.entry.homes.now block inst (operands_of op.now)) }
{
    match op {
        Op::Binary { a, b, .. } => add_operands(found, uses, block, inst, &[*a, *b]),
        Op::Icmp { a, b, .. } => add_operands(found, uses, block, inst, &[*a, *b]),
        Op::Cast { a, .. } => add_operands(found, uses, block, inst, &[*a]),
        Op::Select { cond, a, b } => add_operands(found, uses, block, inst, &[*cond, *a, *b]),
        Op::Freeze { a } => add_operands(found, uses, block, inst, &[*a]),
        Op::Alloca { count, .. } => add_some(found, uses, block, inst, count),
        Op::Load { at, .. } => add_operands(found, uses, block, inst, &[*at]),
        Op::Store { value, at, .. } => add_operands(found, uses, block, inst, &[*value, *at]),
        Op::Gep { base, indices, .. } => {
            add_operand(found, uses, block, inst, base)?;
            add_operands(found, uses, block, inst, indices.as_slice())
        }
        Op::Rmw { at, value, .. } => add_operands(found, uses, block, inst, &[*at, *value]),
        Op::CmpXchg {
            at,
            expected,
            new,
            ..
        } => add_operands(found, uses, block, inst, &[*at, *expected, *new]),
        Op::ExtractValue { of, .. } => add_operands(found, uses, block, inst, &[*of]),
        Op::Call { args, .. } => add_operands(found, uses, block, inst, args.as_slice()),
        Op::CallLib { args, .. } => add_operands(found, uses, block, inst, args.as_slice()),
        Op::BrIf { cond, .. } => add_operands(found, uses, block, inst, &[*cond]),
        Op::Switch { on, .. } => add_operands(found, uses, block, inst, &[*on]),
        Op::Ret { value } => add_some(found, uses, block, inst, value),
        Op::Phi { .. } | Op::Fence | Op::Br { .. } | Op::Unreachable => Ok(()),
    }
}

/// The questions of the entries of an operation that is a phi.
fn add_phi(found: &mut Vec<Question>, uses: Uses, op: &Op) -> Result<(), OutOfMemory>
    ensures { OnOk result (found.new.items ≡ found.old.items ++ phi_questions uses.entry.f.now uses.entry.homes.now (entries_of op.now)) }
{
    match op {
        Op::Phi { entries, .. } => add_entries(found, uses, entries.as_slice()),
        _ => Ok(()),
    }
}

#[tactic(auto, unfolding(crate::specs::Questions::inst_questions))]
/// The questions of an instruction.
fn add_inst(
    found: &mut Vec<Question>,
    uses: Uses,
    block: usize,
    number: usize,
    inst: &Inst,
) -> Result<(), OutOfMemory>
    ensures { OnOk result (found.new.items ≡ found.old.items ++ inst_questions uses.entry.f.now uses.entry.homes.now block number inst.now) }
{
    add_read(found, uses, block, number, &inst.op)?;
    add_phi(found, uses, &inst.op)
}

/// The questions of the instructions of a block, the first of which has the number `first`.
fn add_insts(
    found: &mut Vec<Question>,
    uses: Uses,
    block: usize,
    first: usize,
    insts: &[Inst],
) -> Result<(), OutOfMemory>
    requires few { length insts.now < 2 ^ 32 }
    requires low { first < 2 ^ 32 }
    ensures { OnOk result (found.new.items ≡ found.old.items ++ questions_in uses.entry.f.now uses.entry.homes.now block first insts.now) }
{
    for (i, inst) in insts.iter().enumerate() {
        add_inst(found, uses, block, first + i, inst)?;
    }
    Ok(())
}

/// The questions of all blocks.
fn add_blocks(found: &mut Vec<Question>, uses: Uses, blocks: &[Block]) -> Result<(), OutOfMemory>
    ensures { OnOk result (found.new.items ≡ found.old.items ++ questions_from uses.entry.f.now uses.entry.homes.now 0 blocks.now) }
{
    for (b, block) in blocks.iter().enumerate() {
        let insts = block_insts(uses.f.insts.as_slice(), *block);
        add_insts(found, uses, b, block.first as usize, insts)?;
    }
    Ok(())
}

/// The uses of registers in a function that aren't after their definition in its block. The only error is that memory ran
/// out.
pub(crate) fn questions_of(alloc: Global, f: &Function) -> Result<Vec<Question>, OutOfMemory>
    ensures { IfOk result (λ questions. questions.items ≡ questions_of f.now) }
{
    let homes = homes_of(alloc, f)?;
    let mut found = Vec::new(alloc);
    let uses = Uses { f, homes: &homes };
    add_blocks(&mut found, uses, f.blocks.as_slice())?;
    Ok(found)
}
