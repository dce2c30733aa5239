ghost use Rattle.std.specs.Prelude.{◌≡◌, ◌++◌, take, drop, map, IfOk, OnOk};
ghost use Rattle.std.specs.List.{flat_map};
ghost use Rattle.ir_grammar.specs.Spelled.{bodies_of};
ghost use Rattle.ir_body_names.specs.Definitions.{is_void, has_value, parameter_definition, defines_register, result_definitions, instructions_of, block_definitions};
ghost use Rattle.ir_body_names.specs.BodyFaults.{definitions_of};
ghost use Rattle.ir_body_names.specs.Views.{surroundings_of};

use crate::names::Names;
use hw_base::OutOfMemory;
use ir_core::Token;
use ir_grammar::{
    SpelledBlock, SpelledInstruction, SpelledOperation, SpelledParameter, SpelledType,
};
use std::alloc::Global;

/// A parameter, a block or a result, in order of the text: its name if one is spelled.
#[derive(Clone, Copy)]
pub struct Definition {
    pub name: Option<Token>,
    pub is_block: bool,
}

/// Whether the type that a spelled type stands for is `void`.
fn is_void(types: &[SpelledType], numbers: &[u32], ty: usize) -> bool
    ensures { result ≡ is_void types.now numbers.now ty }
{
    let number = match numbers.get(ty) {
        Some(number) => *number as usize,
        None => 0,
    };
    matches!(types.get(number), Some(SpelledType::Void))
}

/// Whether an instruction has a value, which takes a name or else a number.
fn has_value(names: &Names, operation: &SpelledOperation) -> bool
    ensures { result ≡ has_value (is_void (surroundings_of names.now).types (surroundings_of names.now).numbers) operation.now }
{
    match operation {
        SpelledOperation::Binary { a, .. } => !is_void(names.types, names.numbers, a.ty),
        SpelledOperation::Icmp { .. } => true,
        SpelledOperation::Cast { to, .. } => !is_void(names.types, names.numbers, *to),
        SpelledOperation::Freeze { a } => !is_void(names.types, names.numbers, a.ty),
        SpelledOperation::Select { a, .. } => !is_void(names.types, names.numbers, a.ty),
        SpelledOperation::Phi { ty, .. } => !is_void(names.types, names.numbers, *ty),
        SpelledOperation::Alloca { .. } => true,
        SpelledOperation::Load { ty, .. } => !is_void(names.types, names.numbers, *ty),
        SpelledOperation::GetElementPtr { .. } => true,
        SpelledOperation::AtomicRmw { value, .. } => {
            !is_void(names.types, names.numbers, value.ty)
        }
        SpelledOperation::CmpXchg { .. } => true,
        SpelledOperation::ExtractValue { .. } => true,
        SpelledOperation::Call { result, .. } => !is_void(names.types, names.numbers, *result),
        _ => false,
    }
}

/// Whether an instruction defines a register: a name is spelled for it, or it has a value.
pub fn defines_register(names: &Names, instruction: &SpelledInstruction) -> bool
    ensures { result ≡ defines_register (is_void (surroundings_of names.now).types (surroundings_of names.now).numbers) instruction.now }
{
    instruction.result.is_some() || has_value(names, &instruction.operation)
}

/// Adds what an instruction defines.
fn add_result(
    defined: &mut Vec<Definition>,
    names: &Names,
    instruction: &SpelledInstruction,
) -> Result<(), OutOfMemory>
    ensures { OnOk result (defined.new.items ≡ defined.old.items ++ result_definitions (is_void (surroundings_of names.now).types (surroundings_of names.now).numbers) instruction.now) }
{
    if defines_register(names, instruction) {
        defined.push(Definition {
            name: instruction.result,
            is_block: false,
        })?;
    }
    Ok(())
}

/// Adds what instructions define.
fn add_results(
    defined: &mut Vec<Definition>,
    names: &Names,
    instructions: &[SpelledInstruction],
) -> Result<(), OutOfMemory>
    ensures { OnOk result (defined.new.items ≡ defined.old.items ++ flat_map (result_definitions (is_void (surroundings_of names.now).types (surroundings_of names.now).numbers)) instructions.now) }
{
    let mut rest = instructions;
    while let [instruction, after @ ..] = rest {
        add_result(defined, names, instruction)?;
        rest = after;
    }
    Ok(())
}

/// The instructions of a block.
pub fn instructions_of<'a>(
    instructions: &'a [SpelledInstruction],
    block: &SpelledBlock,
) -> &'a [SpelledInstruction]
    ensures { result.now ≡ instructions_of instructions.now block.now }
{
    let from = block.first.min(instructions.len());
    let behind = &instructions[from..];
    &behind[..block.count.min(behind.len())]
}

/// Adds a block, and what its instructions define.
fn add_block(
    defined: &mut Vec<Definition>,
    names: &Names,
    block: &SpelledBlock,
) -> Result<(), OutOfMemory>
    ensures { OnOk result (defined.new.items ≡ defined.old.items ++ block_definitions (is_void (surroundings_of names.now).types (surroundings_of names.now).numbers) (surroundings_of names.now).bodies.instructions block.now) }
{
    defined.push(Definition {
        name: block.label,
        is_block: true,
    })?;
    let instructions = names.bodies.instructions.as_slice();
    add_results(defined, names, instructions_of(instructions, block))
}

/// Adds blocks, and what their instructions define.
fn add_blocks(
    defined: &mut Vec<Definition>,
    names: &Names,
    blocks: &[SpelledBlock],
) -> Result<(), OutOfMemory>
    ensures { OnOk result (defined.new.items ≡ defined.old.items ++ flat_map (block_definitions (is_void (surroundings_of names.now).types (surroundings_of names.now).numbers) (surroundings_of names.now).bodies.instructions) blocks.now) }
{
    let mut rest = blocks;
    while let [block, after @ ..] = rest {
        add_block(defined, names, block)?;
        rest = after;
    }
    Ok(())
}

/// The parameters as what they define.
fn parameter_definitions(
    alloc: Global,
    parameters: &[SpelledParameter],
) -> Result<Vec<Definition>, OutOfMemory>
    ensures { IfOk result (λ defined. defined.items ≡ map parameter_definition parameters.now) }
{
    let mut defined = Vec::new(alloc);
    let mut rest = parameters;
    while let [parameter, after @ ..] = rest {
        defined.push(Definition {
            name: parameter.name,
            is_block: false,
        })?;
        rest = after;
    }
    Ok(defined)
}

/// All that a function with these parameters and blocks defines, in order of the text.
pub fn definitions_of(
    alloc: Global,
    names: &Names,
    parameters: &[SpelledParameter],
    blocks: &[SpelledBlock],
) -> Result<Vec<Definition>, OutOfMemory>
    ensures { IfOk result (λ defined. defined.items ≡ definitions_of (surroundings_of names.now) parameters.now blocks.now) }
{
    let mut defined = parameter_definitions(alloc, parameters)?;
    add_blocks(&mut defined, names, blocks)?;
    Ok(defined)
}
