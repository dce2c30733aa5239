ghost use Rattle.std.specs.Prelude.{◌≡◌, [], ◌∷◌, ◌++◌, take, drop, IfOk, OnOk};
ghost use Rattle.std.specs.List.{flat_map};
ghost use Rattle.ir_grammar.specs.Spelled.{bodies_of};
ghost use Rattle.ir_body_names.specs.declared.uses.Use.TheVariants.{Target, Callee};
ghost use Rattle.ir_body_names.specs.Uses.{operand_uses, typed_uses, count_uses, returned_uses, incoming_uses, case_uses, operation_uses, is_debug_location, attachment_uses, instruction_uses, block_uses, uses};

use crate::definitions::instructions_of;
use hw_base::OutOfMemory;
use ir_core::Token;
use ir_grammar::{
    SpelledAttachment, SpelledBlock, SpelledBodies, SpelledCase, SpelledIncoming,
    SpelledInstruction, SpelledOperand, SpelledOperation, TypedOperand,
};
use ir_names::text_of;
use std::alloc::Global;

/// A name that an instruction uses, by its token, and what for.
#[derive(Clone, Copy)]
pub(crate) enum Use {
    /// An operand.
    Register(Token),
    /// A block to which a terminator leads.
    Target(Token),
    /// A block from which a phi has a value.
    Origin(Token),
    /// What follows a `!dbg`.
    Location(Token),
    /// A function that is called.
    Callee(Token),
}

/// The `count` items from `first` on, or those of them that are there.
pub fn items_from<T: Copy>(items: &[T], first: usize, count: usize) -> &[T]
    ensures { result.now ≡ take count (drop first items.now) }
{
    let from = first.min(items.len());
    let behind = &items[from..];
    &behind[..count.min(behind.len())]
}

fn add_operand(used: &mut Vec<Use>, operand: &SpelledOperand) -> Result<(), OutOfMemory>
    ensures { OnOk result (used.new.items ≡ used.old.items ++ operand_uses operand.now) }
{
    match operand {
        SpelledOperand::Register(name) => {
            used.push(Use::Register(*name))?;
            Ok(())
        }
        SpelledOperand::Constant { .. } => Ok(()),
    }
}

fn add_count(used: &mut Vec<Use>, count: &Option<TypedOperand>) -> Result<(), OutOfMemory>
    ensures { OnOk result (used.new.items ≡ used.old.items ++ count_uses count.now) }
{
    match count {
        None => Ok(()),
        Some(x) => add_operand(used, &x.value),
    }
}

fn add_returned(used: &mut Vec<Use>, value: &Option<SpelledOperand>) -> Result<(), OutOfMemory>
    ensures { OnOk result (used.new.items ≡ used.old.items ++ returned_uses value.now) }
{
    match value {
        None => Ok(()),
        Some(x) => add_operand(used, x),
    }
}

/// Two operands, one after the other.
fn add_two(used: &mut Vec<Use>, a: &SpelledOperand, b: &SpelledOperand) -> Result<(), OutOfMemory>
    ensures { OnOk result (used.new.items ≡ used.old.items ++ (operand_uses a.now ++ operand_uses b.now)) }
{
    add_operand(used, a)?;
    add_operand(used, b)
}

/// Three operands, one after the other.
fn add_three(
    used: &mut Vec<Use>,
    a: &SpelledOperand,
    b: &SpelledOperand,
    c: &SpelledOperand,
) -> Result<(), OutOfMemory>
    ensures { OnOk result (used.new.items ≡ used.old.items ++ (operand_uses a.now ++ (operand_uses b.now ++ operand_uses c.now))) }
{
    add_operand(used, a)?;
    add_two(used, b, c)
}

/// The operands of a row.
fn add_operands(used: &mut Vec<Use>, operands: &[TypedOperand]) -> Result<(), OutOfMemory>
    ensures { OnOk result (used.new.items ≡ used.old.items ++ flat_map typed_uses operands.now) }
{
    let mut rest = operands;
    while let [operand, after @ ..] = rest {
        add_operand(used, &operand.value)?;
        rest = after;
    }
    Ok(())
}

fn add_incoming(used: &mut Vec<Use>, entry: &SpelledIncoming) -> Result<(), OutOfMemory>
    ensures { OnOk result (used.new.items ≡ used.old.items ++ incoming_uses entry.now) }
{
    add_operand(used, &entry.value)?;
    used.push(Use::Origin(entry.block))?;
    Ok(())
}

/// The entries of a phi.
fn add_entries(used: &mut Vec<Use>, entries: &[SpelledIncoming]) -> Result<(), OutOfMemory>
    ensures { OnOk result (used.new.items ≡ used.old.items ++ flat_map incoming_uses entries.now) }
{
    let mut rest = entries;
    while let [entry, after @ ..] = rest {
        add_incoming(used, entry)?;
        rest = after;
    }
    Ok(())
}

fn add_case(used: &mut Vec<Use>, case: &SpelledCase) -> Result<(), OutOfMemory>
    ensures { OnOk result (used.new.items ≡ used.old.items ++ case_uses case.now) }
{
    add_operand(used, &case.value.value)?;
    used.push(Use::Target(case.block))?;
    Ok(())
}

/// The cases of a switch.
fn add_cases(used: &mut Vec<Use>, cases: &[SpelledCase]) -> Result<(), OutOfMemory>
    ensures { OnOk result (used.new.items ≡ used.old.items ++ flat_map case_uses cases.now) }
{
    let mut rest = cases;
    while let [case, after @ ..] = rest {
        add_case(used, case)?;
        rest = after;
    }
    Ok(())
}

/// The address and the indices of a `getelementptr`.
fn add_address(
    used: &mut Vec<Use>,
    base: &SpelledOperand,
    indices: &[TypedOperand],
) -> Result<(), OutOfMemory>
    ensures { OnOk result (used.new.items ≡ used.old.items ++ (operand_uses base.now ++ flat_map typed_uses indices.now)) }
{
    add_operand(used, base)?;
    add_operands(used, indices)
}

/// A function and the arguments of its call.
fn add_call(used: &mut Vec<Use>, name: Token, arguments: &[TypedOperand]) -> Result<(), OutOfMemory>
    ensures { OnOk result (used.new.items ≡ used.old.items ++ Callee name ∷ flat_map typed_uses arguments.now) }
{
    used.push(Use::Callee(name))?;
    add_operands(used, arguments)
}

/// A condition and two blocks.
fn add_branch(
    used: &mut Vec<Use>,
    condition: &SpelledOperand,
    yes: Token,
    no: Token,
) -> Result<(), OutOfMemory>
    ensures { OnOk result (used.new.items ≡ used.old.items ++ (operand_uses condition.now ++ Target yes ∷ Target no ∷ [])) }
{
    add_operand(used, condition)?;
    used.push(Use::Target(yes))?;
    used.push(Use::Target(no))?;
    Ok(())
}

/// The value, the other block and the cases of a switch.
fn add_switch(
    used: &mut Vec<Use>,
    value: &SpelledOperand,
    other: Token,
    cases: &[SpelledCase],
) -> Result<(), OutOfMemory>
    ensures { OnOk result (used.new.items ≡ used.old.items ++ (operand_uses value.now ++ Target other ∷ flat_map case_uses cases.now)) }
{
    add_operand(used, value)?;
    used.push(Use::Target(other))?;
    add_cases(used, cases)
}

/// What an instruction uses beside its attachments.
fn add_operation(
    used: &mut Vec<Use>,
    bodies: &SpelledBodies,
    operation: &SpelledOperation,
) -> Result<(), OutOfMemory>
    ensures { OnOk result (used.new.items ≡ used.old.items ++ operation_uses (bodies_of bodies.now) operation.now) }
{
    match operation {
        SpelledOperation::Binary { a, b } => add_two(used, &a.value, b),
        SpelledOperation::Icmp { a, b, .. } => add_two(used, &a.value, b),
        SpelledOperation::Cast { a, .. } => add_operand(used, &a.value),
        SpelledOperation::Freeze { a } => add_operand(used, &a.value),
        SpelledOperation::Select { condition, a, b } => {
            add_three(used, condition, &a.value, &b.value)
        }
        SpelledOperation::Phi { first, count, .. } => {
            add_entries(used, items_from(&bodies.incoming, *first, *count))
        }
        SpelledOperation::Alloca { count, .. } => add_count(used, count),
        SpelledOperation::Load { pointer, .. } => add_operand(used, pointer),
        SpelledOperation::Store { value, pointer, .. } => add_two(used, &value.value, pointer),
        SpelledOperation::GetElementPtr {
            base,
            first,
            count,
            ..
        } => add_address(used, base, items_from(&bodies.operands, *first, *count)),
        SpelledOperation::Fence => Ok(()),
        SpelledOperation::AtomicRmw { pointer, value, .. } => {
            add_two(used, pointer, &value.value)
        }
        SpelledOperation::CmpXchg {
            pointer,
            expected,
            new,
            ..
        } => add_three(used, pointer, &expected.value, &new.value),
        SpelledOperation::ExtractValue { value, .. } => add_operand(used, value),
        SpelledOperation::Call {
            name,
            first,
            count,
            ..
        } => add_call(used, *name, items_from(&bodies.operands, *first, *count)),
        SpelledOperation::Return { value, .. } => add_returned(used, value),
        SpelledOperation::Jump { block } => {
            used.push(Use::Target(*block))?;
            Ok(())
        }
        SpelledOperation::Branch { condition, yes, no } => {
            add_branch(used, condition, *yes, *no)
        }
        SpelledOperation::Switch {
            value,
            other,
            first,
            count,
        } => add_switch(
            used,
            &value.value,
            *other,
            items_from(&bodies.cases, *first, *count),
        ),
        SpelledOperation::Unreachable => Ok(()),
    }
}

/// Whether metadata by this name says where an instruction comes from.
pub fn is_debug_location(source: &[u8], name: &Token) -> bool
    ensures { result ≡ is_debug_location source.now name.now }
{
    text_of(source, name) == b"!dbg".as_slice()
}

fn add_attachment(
    used: &mut Vec<Use>,
    source: &[u8],
    attachment: &SpelledAttachment,
) -> Result<(), OutOfMemory>
    ensures { OnOk result (used.new.items ≡ used.old.items ++ attachment_uses source.now attachment.now) }
{
    if is_debug_location(source, &attachment.name) {
        used.push(Use::Location(attachment.node))?;
    }
    Ok(())
}

/// The locations in attachments.
fn add_attachments(
    used: &mut Vec<Use>,
    source: &[u8],
    attachments: &[SpelledAttachment],
) -> Result<(), OutOfMemory>
    ensures { OnOk result (used.new.items ≡ used.old.items ++ flat_map (attachment_uses source.now) attachments.now) }
{
    let mut rest = attachments;
    while let [attachment, after @ ..] = rest {
        add_attachment(used, source, attachment)?;
        rest = after;
    }
    Ok(())
}

/// All that an instruction uses.
fn add_instruction(
    used: &mut Vec<Use>,
    source: &[u8],
    bodies: &SpelledBodies,
    instruction: &SpelledInstruction,
) -> Result<(), OutOfMemory>
    ensures { OnOk result (used.new.items ≡ used.old.items ++ instruction_uses source.now (bodies_of bodies.now) instruction.now) }
{
    add_operation(used, bodies, &instruction.operation)?;
    let attachments = items_from(&bodies.attachments, instruction.first, instruction.count);
    add_attachments(used, source, attachments)
}

/// All that instructions use.
fn add_instructions(
    used: &mut Vec<Use>,
    source: &[u8],
    bodies: &SpelledBodies,
    instructions: &[SpelledInstruction],
) -> Result<(), OutOfMemory>
    ensures { OnOk result (used.new.items ≡ used.old.items ++ flat_map (instruction_uses source.now (bodies_of bodies.now)) instructions.now) }
{
    let mut rest = instructions;
    while let [instruction, after @ ..] = rest {
        add_instruction(used, source, bodies, instruction)?;
        rest = after;
    }
    Ok(())
}

fn add_block(
    used: &mut Vec<Use>,
    source: &[u8],
    bodies: &SpelledBodies,
    block: &SpelledBlock,
) -> Result<(), OutOfMemory>
    ensures { OnOk result (used.new.items ≡ used.old.items ++ block_uses source.now (bodies_of bodies.now) block.now) }
{
    let instructions = instructions_of(bodies.instructions.as_slice(), block);
    add_instructions(used, source, bodies, instructions)
}

/// All that the instructions of blocks use, in order of the text.
pub(crate) fn uses(
    alloc: Global,
    source: &[u8],
    bodies: &SpelledBodies,
    blocks: &[SpelledBlock],
) -> Result<Vec<Use>, OutOfMemory>
    ensures { IfOk result (λ used. used.items ≡ uses source.now (bodies_of bodies.now) blocks.now) }
{
    let mut used = Vec::new(alloc);
    let mut rest = blocks;
    while let [block, after @ ..] = rest {
        add_block(&mut used, source, bodies, block)?;
        rest = after;
    }
    Ok(used)
}
