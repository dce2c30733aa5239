ghost use Rattle.std.specs.Prelude.{◌≡◌, ◌<◌, ◌+◌, ◌^◌, ◌++◌, map, length, IfOk};
ghost use Rattle.ir_first_values.specs.Offsets.{IsReady};
ghost use Rattle.ir_first_values.specs.Tables.{tables_of};
ghost use Rattle.ir_body_names.specs.BodyFaults.{definitions_of, body_faults};
ghost use Rattle.ir_body_names.specs.Views.{surroundings_of};
ghost use Rattle.ir_functions.specs.Scope.{type_number, definition_numbers};
ghost use Rattle.ir_functions.specs.Functions.{scope_of, all_instructions, register_types, function_by, function_of};
ghost use Rattle.ir_functions.specs.Views.{scope_in};
ghost use Rattle.ir_functions.specs.Resolution.{spelled_function, Resolves};

use crate::blocks::{all_instructions, blocks_from};
use crate::resolver::Resolver;
use hw_base::OutOfMemory;
use ir_body_names::{Definition, Names, beside_body, definition_keys, definitions_of};
use ir_core::{Function, Token, TypeIdList};
use ir_first_values::Initializers;
use ir_grammar::{SpelledBlock, SpelledInstruction, SpelledParameter};
use ir_names::{Index, NamesError, behind_sigil};
use ir_text::name_bytes;
use std::alloc::Global;

/// A function as it is spelled: its name, the number of the type of its result, its parameters and its blocks.
#[derive(Drop)]
pub struct SpelledFunction<'a> {
    pub name: Token,
    pub result: usize,
    pub parameters: &'a [SpelledParameter],
    pub blocks: &'a [SpelledBlock],
}

/// The number of each definition among those of its kind: registers, and blocks.
fn definition_numbers(alloc: Global, defined: &[Definition]) -> Result<Vec<u32>, OutOfMemory>
    requires { length defined.now < 2 ^ 32 }
    ensures { IfOk result (λ numbers. numbers.items ≡ definition_numbers 0 0 defined.now) }
{
    let mut numbers = Vec::new(alloc);
    let mut registers: u32 = 0;
    let mut blocks: u32 = 0;
    let mut rest = defined;
    while let [definition, after @ ..] = rest {
        if definition.is_block {
            numbers.push(blocks)?;
            blocks += 1;
        } else {
            numbers.push(registers)?;
            registers += 1;
        }
        rest = after;
    }
    Ok(numbers)
}

/// The types of a function's registers: of its parameters, and of the results of its instructions.
fn registers_of(
    alloc: Global,
    resolver: &Resolver,
    parameters: &[SpelledParameter],
    instructions: &[SpelledInstruction],
) -> Result<TypeIdList, OutOfMemory>
    ensures { IfOk result (λ regs. regs ≡ map (λ p. type_number (scope_in resolver.now) p.ty) parameters.now ++ register_types (scope_in resolver.now) instructions.now) }
{
    let mut regs = resolver.parameter_types(alloc, parameters)?;
    resolver.add_register_types(&mut regs, instructions)?;
    Ok(regs)
}

/// The function of these instructions.
fn function_by(
    alloc: Global,
    resolver: &Resolver,
    function: &SpelledFunction,
    instructions: &[SpelledInstruction],
) -> Result<Function, OutOfMemory>
    requires few { length function.now.parameters.now + length instructions.now < 2 ^ 32 }
    requires whole { length (all_instructions (surroundings_of resolver.now.names.now).bodies.instructions function.now.blocks.now) < 2 ^ 32 }
    ensures { IfOk result (λ f. f ≡ function_by (scope_in resolver.now) (spelled_function function.now) instructions.now) }
{
    let params = function.parameters.len() as u32;
    let regs = registers_of(alloc, resolver, function.parameters, instructions)?;
    let all = resolver.names.bodies.instructions.as_slice();
    Ok(Function {
        name: name_bytes(alloc, behind_sigil(resolver.names.source, &function.name))?,
        params,
        result: resolver.type_number(function.result),
        regs,
        allocas: resolver.variable_sizes(alloc, instructions)?,
        blocks: blocks_from(alloc, all, function.blocks)?,
        insts: resolver.instructions_from(alloc, params, instructions)?,
        place: function.name.place,
    })
}

/// The function that a spelled one stands for, by the index of what it defines and the number of each definition.
fn numbered_function(
    alloc: Global,
    values: &Initializers,
    names: &Names,
    index: &Index,
    numbers: &[u32],
    function: &SpelledFunction,
) -> Result<Function, OutOfMemory>
    requires ready { IsReady values.now }
    requires types { length names.now.types.now + 300 < 2 ^ 32 }
    requires functions { length names.now.functions.now < 2 ^ 32 }
    requires declares { length names.now.declares.now < 2 ^ 32 }
    requires nodes { length names.now.nodes.now < 2 ^ 32 }
    requires keys { index.now ≡ (scope_of (surroundings_of names.now) (tables_of values.now) values.now.module.now (spelled_function function.now)).keys }
    requires numbers { numbers.now ≡ (scope_of (surroundings_of names.now) (tables_of values.now) values.now.module.now (spelled_function function.now)).numbers }
    requires short { length function.now.parameters.now + length (all_instructions (surroundings_of names.now).bodies.instructions function.now.blocks.now) < 2 ^ 32 }
    ensures { IfOk result (λ f. f ≡ function_of (surroundings_of names.now) (tables_of values.now) values.now.module.now (spelled_function function.now)) }
{
    let all = names.bodies.instructions.as_slice();
    let instructions = all_instructions(alloc, all, function.blocks)?;
    let resolver = Resolver {
        names: &*names,
        values: &*values,
        index: &*index,
        numbers: &*numbers,
    };
    function_by(alloc, &resolver, function, instructions.as_slice())
}

/// The function that a spelled one stands for, by what it defines.
fn defined_function(
    alloc: Global,
    values: &Initializers,
    names: &Names,
    function: &SpelledFunction,
    defined: &[Definition],
) -> Result<Function, OutOfMemory>
    requires ready { IsReady values.now }
    requires types { length names.now.types.now + 300 < 2 ^ 32 }
    requires functions { length names.now.functions.now < 2 ^ 32 }
    requires declares { length names.now.declares.now < 2 ^ 32 }
    requires nodes { length names.now.nodes.now < 2 ^ 32 }
    requires defined { defined.now ≡ definitions_of (surroundings_of names.now) function.now.parameters.now function.now.blocks.now }
    requires few { length defined.now < 2 ^ 32 }
    requires short { length function.now.parameters.now + length (all_instructions (surroundings_of names.now).bodies.instructions function.now.blocks.now) < 2 ^ 32 }
    ensures { IfOk result (λ f. f ≡ function_of (surroundings_of names.now) (tables_of values.now) values.now.module.now (spelled_function function.now)) }
{
    let keys = definition_keys(alloc, names.source, defined)?;
    let index = Index::new(alloc, keys.as_slice())?;
    let numbers = definition_numbers(alloc, defined)?;
    numbered_function(alloc, values, names, &index, numbers.as_slice(), function)
}

/// The function that a spelled one stands for, if no name in it has a fault; else it means nothing. For `values` and `names` see
/// `resolve`. The only error is that memory ran out.
pub fn function_of(
    alloc: Global,
    values: &Initializers,
    names: &Names,
    function: &SpelledFunction,
) -> Result<Function, OutOfMemory>
    requires ready { IsReady values.now }
    requires types { length names.now.types.now + 300 < 2 ^ 32 }
    requires functions { length names.now.functions.now < 2 ^ 32 }
    requires declares { length names.now.declares.now < 2 ^ 32 }
    requires nodes { length names.now.nodes.now < 2 ^ 32 }
    requires few { length (definitions_of (surroundings_of names.now) function.now.parameters.now function.now.blocks.now) < 2 ^ 32 }
    requires short { length function.now.parameters.now + length (all_instructions (surroundings_of names.now).bodies.instructions function.now.blocks.now) < 2 ^ 32 }
    ensures { IfOk result (λ f. f ≡ function_of (surroundings_of names.now) (tables_of values.now) values.now.module.now (spelled_function function.now)) }
{
    let defined = definitions_of(alloc, names, function.parameters, function.blocks)?;
    defined_function(alloc, values, names, function, defined.as_slice())
}

/// A function with its names resolved: each register, block, type, global variable, function and metadata node is a number.
/// `values` is what its constants are made from, with the module so far, and `names` is what its names are resolved against.
/// The types of values whose type isn't spelled are numbered after the spelled ones. The error is the first fault of a name, as
/// `ir_body_names::beside_body` says, or running out of memory.
pub fn resolve(
    alloc: Global,
    values: &Initializers,
    names: &Names,
    function: &SpelledFunction,
) -> Result<Function, NamesError>
    requires ready { IsReady values.now }
    requires types { length names.now.types.now + 300 < 2 ^ 32 }
    requires functions { length names.now.functions.now < 2 ^ 32 }
    requires declares { length names.now.declares.now < 2 ^ 32 }
    requires nodes { length names.now.nodes.now < 2 ^ 32 }
    requires few { length (definitions_of (surroundings_of names.now) function.now.parameters.now function.now.blocks.now) < 2 ^ 32 }
    requires short { length function.now.parameters.now + length (all_instructions (surroundings_of names.now).bodies.instructions function.now.blocks.now) < 2 ^ 32 }
    ensures { Resolves (surroundings_of names.now) (tables_of values.now) values.now.module.now (spelled_function function.now) result }
{
    match beside_body(alloc, names, function.parameters, function.blocks, None)? {
        Some(fault) => Err(NamesError::Fault(fault)),
        None => Ok(function_of(alloc, values, names, function)?),
    }
}
