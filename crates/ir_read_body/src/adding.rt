ghost use Rattle.std.specs.Prelude.{◌≡◌, ◌++◌};
ghost use Rattle.ir_grammar.specs.Grammar.{Gives};
ghost use Rattle.ir_grammar.specs.Spelled.{store_of, with_rest};
ghost use Rattle.ir_grammar.specs.SpelledBodies.{add_operand, add_phi, add_step, add_call, add_switch, add_instruction, add_block};

use ir_core::Token;
use ir_grammar::{
    Failure, Reader, SpelledAttachment, SpelledBlock, SpelledCase, SpelledConstant,
    SpelledIncoming, SpelledInstruction, SpelledOperand, SpelledOperation, Terminal, TypedOperand,
};

/// Adds a constant of one token, and gives it as an operand.
pub(crate) fn add_operand(
    reader: &mut Reader,
    first: Terminal,
    constant: SpelledConstant,
) -> Result<SpelledOperand, Failure>
    ensures { Gives (λ x. (x, reader.new.rest.now, store_of reader.new.found)) result (with_rest (add_operand first constant (store_of reader.old.found)) reader.old.rest.now) }
{
    let number = reader.add_constant(constant)?;
    Ok(SpelledOperand::Constant {
        first: first.token,
        number,
    })
}

/// Adds a phi's entries, and gives the phi.
pub(crate) fn add_phi(
    reader: &mut Reader,
    ty: usize,
    found: &[SpelledIncoming],
) -> Result<SpelledOperation, Failure>
    ensures { Gives (λ x. (x, reader.new.rest.now, store_of reader.new.found)) result (with_rest (add_phi ty found.now (store_of reader.old.found)) reader.old.rest.now) }
{
    let first = reader.found.bodies.incoming.len();
    let count = found.len();
    reader.found.bodies.incoming.extend_from_slice(found)?;
    Ok(SpelledOperation::Phi { ty, first, count })
}

/// Adds the indices of a `getelementptr`, and gives it.
pub(crate) fn add_step(
    reader: &mut Reader,
    of: usize,
    base: SpelledOperand,
    found: &[TypedOperand],
) -> Result<SpelledOperation, Failure>
    ensures { Gives (λ x. (x, reader.new.rest.now, store_of reader.new.found)) result (with_rest (add_step of base found.now (store_of reader.old.found)) reader.old.rest.now) }
{
    let first = reader.found.bodies.operands.len();
    let count = found.len();
    reader.found.bodies.operands.extend_from_slice(found)?;
    Ok(SpelledOperation::GetElementPtr {
        of,
        base,
        first,
        count,
    })
}

/// Adds the arguments of a call, and gives it.
pub(crate) fn add_call(
    reader: &mut Reader,
    name: Token,
    result_type: usize,
    found: &[TypedOperand],
) -> Result<SpelledOperation, Failure>
    ensures { Gives (λ x. (x, reader.new.rest.now, store_of reader.new.found)) result (with_rest (add_call name result_type found.now (store_of reader.old.found)) reader.old.rest.now) }
{
    let first = reader.found.bodies.operands.len();
    let count = found.len();
    reader.found.bodies.operands.extend_from_slice(found)?;
    Ok(SpelledOperation::Call {
        name,
        result: result_type,
        first,
        count,
    })
}

/// Adds the cases of a switch, and gives it.
pub(crate) fn add_switch(
    reader: &mut Reader,
    value: TypedOperand,
    other: Token,
    found: &[SpelledCase],
) -> Result<SpelledOperation, Failure>
    ensures { Gives (λ x. (x, reader.new.rest.now, store_of reader.new.found)) result (with_rest (add_switch value other found.now (store_of reader.old.found)) reader.old.rest.now) }
{
    let first = reader.found.bodies.cases.len();
    let count = found.len();
    reader.found.bodies.cases.extend_from_slice(found)?;
    Ok(SpelledOperation::Switch {
        value,
        other,
        first,
        count,
    })
}

/// Adds the attachments of an instruction, and gives it.
pub(crate) fn add_instruction(
    reader: &mut Reader,
    name: Option<Token>,
    word: Token,
    operation: SpelledOperation,
    found: &[SpelledAttachment],
) -> Result<SpelledInstruction, Failure>
    ensures { Gives (λ x. (x, reader.new.rest.now, store_of reader.new.found)) result (with_rest (add_instruction name word operation found.now (store_of reader.old.found)) reader.old.rest.now) }
{
    let first = reader.found.bodies.attachments.len();
    let count = found.len();
    reader.found.bodies.attachments.extend_from_slice(found)?;
    Ok(SpelledInstruction {
        result: name,
        word,
        operation,
        first,
        count,
    })
}

/// Adds the instructions of a block, and gives it.
pub(crate) fn add_block(
    reader: &mut Reader,
    label: Option<Token>,
    found: &[SpelledInstruction],
) -> Result<SpelledBlock, Failure>
    ensures { Gives (λ x. (x, reader.new.rest.now, store_of reader.new.found)) result (with_rest (add_block label found.now (store_of reader.old.found)) reader.old.rest.now) }
{
    let first = reader.found.bodies.instructions.len();
    let count = found.len();
    reader.found.bodies.instructions.extend_from_slice(found)?;
    Ok(SpelledBlock {
        label,
        first,
        count,
    })
}
