ghost use Rattle.std.specs.Prelude.{◌≡◌, slice_set, true, OnOk, IfOk};
ghost use Rattle.std.specs.Option.{option_copied};
ghost use Rattle.ir_grammar.specs.Spelled.{store_of};
ghost use Rattle.ir_grammar.specs.Grammar.{nesting_limit};
ghost use Rattle.ir_names.specs.Starts.{is_declared, names_thread_start, starts_threads, operand_constant, argument_constant, call_start, start_constant, base_of, marked_if, marked, marked_by, start_marks};

use crate::index::Index;
use crate::keys::{behind_sigil, global_key, meant};
use crate::parameters::part_of;
use hw_base::{MOST_NESTING, OutOfMemory};
use ir_core::Token;
use ir_grammar::{
    SpelledConstant, SpelledInstruction, SpelledItem, SpelledOperand, SpelledOperation, Spellings,
    TypedOperand,
};
use ir_text::name_bytes;
use std::alloc::Global;

/// Whether the token names the function that starts a thread.
fn names_thread_start(alloc: Global, source: &[u8], name: &Token) -> Result<bool, OutOfMemory>
    ensures { IfOk result (λ b. b ≡ names_thread_start source.now name.now) }
{
    let bytes = name_bytes(alloc, behind_sigil(source, name))?;
    Ok(bytes.as_slice() == b"pthread_create".as_slice())
}

/// Whether the item declares a function.
fn is_declared(item: Option<SpelledItem>) -> bool
    ensures { result ≡ is_declared item }
{
    matches!(item, Some(SpelledItem::Declare { .. }))
}

/// Whether a callee is that function, and the module declares it.
fn starts_threads(
    alloc: Global,
    source: &[u8],
    index: &Index,
    items: &[SpelledItem],
    name: &Token,
) -> Result<bool, OutOfMemory>
    ensures { IfOk result (λ b. b ≡ starts_threads source.now index.now items.now name.now) }
{
    if names_thread_start(alloc, source, name)? {
        let key = global_key(alloc, source, name)?;
        Ok(is_declared(meant(index, items, key.as_slice())))
    } else {
        Ok(false)
    }
}

/// The number of the constant that an operand is, or none.
fn operand_constant(operand: &SpelledOperand) -> Option<usize>
    ensures { result ≡ operand_constant operand.now }
{
    match operand {
        SpelledOperand::Register(_) => None,
        SpelledOperand::Constant { number, .. } => Some(*number),
    }
}

/// The same of an argument, where it is there.
fn argument_constant(argument: Option<TypedOperand>) -> Option<usize>
    ensures { result ≡ argument_constant argument }
{
    match argument {
        None => None,
        Some(x) => operand_constant(&x.value),
    }
}

/// The number of the constant that a call of this function takes for the function to start.
fn call_start(
    alloc: Global,
    source: &[u8],
    index: &Index,
    items: &[SpelledItem],
    name: &Token,
    arguments: &[TypedOperand],
) -> Result<Option<usize>, OutOfMemory>
    ensures { IfOk result (λ n. n ≡ call_start source.now index.now items.now name.now arguments.now) }
{
    if starts_threads(alloc, source, index, items, name)? {
        Ok(argument_constant(arguments.get(2).copied()))
    } else {
        Ok(None)
    }
}

/// The same of what an instruction does.
fn start_constant(
    alloc: Global,
    source: &[u8],
    index: &Index,
    items: &[SpelledItem],
    operands: &[TypedOperand],
    operation: &SpelledOperation,
) -> Result<Option<usize>, OutOfMemory>
    ensures { IfOk result (λ n. n ≡ start_constant source.now index.now items.now operands.now operation.now) }
{
    match operation {
        SpelledOperation::Call {
            name,
            first,
            count,
            ..
        } => {
            let arguments = part_of(operands, *first, *count);
            call_start(alloc, source, index, items, name, arguments)
        }
        _ => Ok(None),
    }
}

/// The base of an address, or none.
fn base_of(constant: Option<&SpelledConstant>) -> Option<usize>
    ensures { result ≡ base_of (option_copied constant.entry) }
{
    match constant {
        Some(SpelledConstant::Address { base, .. }) => Some(*base),
        _ => None,
    }
}

/// Marks the constant with this number.
fn set(marks: &mut [bool], number: usize)
    ensures { marks.new ≡ slice_set marks.old number true }
{
    if number < marks.len() {
        marks[number] = true;
    }
}

#[tactic(auto, unfolding(crate::specs::Starts::marked))]
/// Marks the constant with this number, and the bases below it, which are so many levels at most.
fn mark(levels: u32, constants: &[SpelledConstant], marks: &mut [bool], number: usize)
    ensures { marks.new ≡ marked levels constants.now marks.old number }
{
    set(marks, number);
    if levels > 0 {
        match base_of(constants.get(number)) {
            None => {}
            Some(base) => mark(levels - 1, constants, marks, base),
        }
    }
}

/// Marks what these instructions start.
fn mark_all(
    alloc: Global,
    source: &[u8],
    index: &Index,
    items: &[SpelledItem],
    found: &Spellings,
    marks: &mut [bool],
) -> Result<(), OutOfMemory>
    ensures { OnOk result (marks.new ≡ marked_by source.now index.now items.now (store_of found.now).bodies.operands (store_of found.now).constants marks.old (store_of found.now).bodies.instructions) }
{
    let operands = found.bodies.operands.as_slice();
    let constants = found.constants.as_slice();
    let mut rest = found.bodies.instructions.as_slice();
    while let [x, after @ ..] = rest {
        match start_constant(alloc, source, index, items, operands, &x.operation)? {
            None => {}
            Some(number) => mark(MOST_NESTING, constants, marks, number),
        }
        rest = after;
    }
    Ok(())
}

/// One mark a constant: whether it may name a function.
pub(crate) fn start_marks(
    alloc: Global,
    source: &[u8],
    index: &Index,
    items: &[SpelledItem],
    found: &Spellings,
) -> Result<Vec<bool>, OutOfMemory>
    ensures { IfOk result (λ marks. marks.items ≡ start_marks source.now index.now items.now (store_of found.now)) }
{
    let mut marks = vec![in alloc; false; found.constants.len()]?;
    mark_all(alloc, source, index, items, found, &mut marks)?;
    Ok(marks)
}
