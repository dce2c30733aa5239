ghost use Rattle.std.specs.Prelude.{◌≡◌};
ghost use Rattle.ir_grammar.specs.Reading.{starts, first};
ghost use Rattle.ir_grammar.specs.Grammar.{Gives, Reads, read, with_front};
ghost use Rattle.ir_grammar.specs.Spelled.{store_of};
ghost use Rattle.ir_grammar.specs.Terminators.{simple_behind_void, operand_behind_void, void_alone, void_operand, solid_value, returned, return_rest, jump_end, branch_end, branch_rest, case_value, case_rule, cases_rule, cases, switch_head, switch_rest, unreachable_rest};

use crate::adding::add_switch;
use crate::endings::attachments;
use crate::operands::{
    SIMPLE, address_operand, bit_operand, block_name, comma_block, integer_operand, operand,
    register, simple_operand, typed_operand,
};
use ir_grammar::{
    Context, Failure, Kind, Reader, SpelledAttachment, SpelledCase, SpelledOperand,
    SpelledOperation, SpelledType, TypedOperand,
};

/// A value behind `ret void` that no instruction of a next block begins with.
#[tactic(auto, unfolding(ir_grammar::specs::Terminators::simple_behind_void, ir_grammar::specs::Operands::simple_operand, ir_grammar::specs::Operands::integer_operand, ir_grammar::specs::Operands::word_operand, ir_grammar::specs::Operands::named_operand))]
fn simple_behind_void(reader: &mut Reader, levels: u32) -> Result<SpelledOperand, Failure>
    ensures { Reads (λ x. x) result reader.old reader.new levels simple_behind_void }
{
    if reader.next_among(&SIMPLE) {
        return simple_operand(reader, levels);
    }
    Err(reader.refuse(&[Kind::Float]))
}

/// Whether such a value is read at the next token, if only to refuse it.
#[tactic(auto, using(crate::proofs::ReturnKinds::simple_kinds))]
fn starts_simple(reader: &Reader) -> bool
    ensures { result ≡ starts (first simple_behind_void) reader.now.rest.now }
{
    reader.next_among(&SIMPLE) || reader.next_is(Kind::Float)
}

/// Another value behind `ret void`.
#[tactic(auto, unfolding(ir_grammar::specs::Terminators::operand_behind_void, ir_grammar::specs::Operands::register))]
fn operand_behind_void(reader: &mut Reader, levels: u32) -> Result<SpelledOperand, Failure>
    ensures { Reads (λ x. x) result reader.old reader.new levels operand_behind_void }
{
    if reader.next_is(Kind::Local) {
        return register(reader, &[Kind::Local], levels);
    }
    address_operand(reader, levels)
}

/// void, and a value or none
#[tactic(auto, unfolding(ir_grammar::specs::Terminators::void_alone))]
fn void_alone(reader: &mut Reader, levels: u32) -> Result<(usize, Option<SpelledOperand>), Failure>
    ensures { Reads (λ x. x) result reader.old reader.new levels void_alone }
{
    reader.take(Kind::Void)?;
    let ty = reader.add_type(SpelledType::Void)?;
    if starts_simple(reader) {
        let value = simple_behind_void(reader, levels)?;
        return Ok((ty, Some(value)));
    }
    Ok((ty, None))
}

/// void, and a value that may be taken for the beginning of an instruction
#[tactic(auto, unfolding(ir_grammar::specs::Terminators::void_operand))]
fn void_operand(
    reader: &mut Reader,
    levels: u32,
) -> Result<(usize, Option<SpelledOperand>), Failure>
    ensures { Reads (λ x. x) result reader.old reader.new levels void_operand }
{
    reader.take(Kind::VoidBeforeOperand)?;
    let ty = reader.add_type(SpelledType::Void)?;
    let value = operand_behind_void(reader, levels)?;
    Ok((ty, Some(value)))
}

/// type value, where the type isn't void
#[tactic(auto, unfolding(ir_grammar::specs::Terminators::solid_value))]
fn solid_value(reader: &mut Reader, levels: u32) -> Result<(usize, Option<SpelledOperand>), Failure>
    ensures { Reads (λ x. x) result reader.old reader.new levels solid_value }
{
    let ty = reader.solid_type(Context::Plain, levels)?;
    let value = operand(reader, levels)?;
    Ok((ty, Some(value)))
}

/// void | type value
#[tactic(auto, unfolding(ir_grammar::specs::Terminators::returned, ir_grammar::specs::Terminators::void_alone, ir_grammar::specs::Terminators::void_operand))]
fn returned(reader: &mut Reader, levels: u32) -> Result<(usize, Option<SpelledOperand>), Failure>
    ensures { Reads (λ x. x) result reader.old reader.new levels returned }
{
    if reader.next_is(Kind::Void) {
        return void_alone(reader, levels);
    }
    if reader.next_is(Kind::VoidBeforeOperand) {
        return void_operand(reader, levels);
    }
    solid_value(reader, levels)
}

/// ret void | ret type value
#[tactic(auto, unfolding(ir_grammar::specs::Terminators::return_rest))]
pub(crate) fn return_rest(
    reader: &mut Reader,
    levels: u32,
) -> Result<(SpelledOperation, Vec<SpelledAttachment>), Failure>
    ensures { Reads (λ v. (v.0, v.1.items)) result reader.old reader.new levels return_rest }
{
    let (ty, value) = returned(reader, levels)?;
    let found = attachments(reader, levels)?;
    Ok((SpelledOperation::Return { ty, value }, found))
}

/// label local
#[tactic(auto, unfolding(ir_grammar::specs::Terminators::jump_end))]
fn jump_end(
    reader: &mut Reader,
    levels: u32,
) -> Result<(SpelledOperation, Vec<SpelledAttachment>), Failure>
    ensures { Reads (λ v. (v.0, v.1.items)) result reader.old reader.new levels jump_end }
{
    let block = block_name(reader, levels)?;
    let found = attachments(reader, levels)?;
    Ok((SpelledOperation::Jump { block: block.token }, found))
}

/// i1 value , label local , label local
#[tactic(auto, unfolding(ir_grammar::specs::Terminators::branch_end))]
fn branch_end(
    reader: &mut Reader,
    levels: u32,
) -> Result<(SpelledOperation, Vec<SpelledAttachment>), Failure>
    ensures { Reads (λ v. (v.0, v.1.items)) result reader.old reader.new levels branch_end }
{
    let condition = bit_operand(reader, levels)?;
    let yes = comma_block(reader, levels)?;
    let no = comma_block(reader, levels)?;
    let found = attachments(reader, levels)?;
    Ok((
        SpelledOperation::Branch {
            condition,
            yes: yes.token,
            no: no.token,
        },
        found,
    ))
}

/// label local | i1 value , label local , label local
#[tactic(auto, unfolding(ir_grammar::specs::Terminators::branch_rest, ir_grammar::specs::Terminators::jump_end, ir_grammar::specs::Operands::block_name))]
pub(crate) fn branch_rest(
    reader: &mut Reader,
    levels: u32,
) -> Result<(SpelledOperation, Vec<SpelledAttachment>), Failure>
    ensures { Reads (λ v. (v.0, v.1.items)) result reader.old reader.new levels branch_rest }
{
    if reader.next_is(Kind::LabelWord) {
        return jump_end(reader, levels);
    }
    branch_end(reader, levels)
}

/// type integer
#[tactic(auto, unfolding(ir_grammar::specs::Terminators::case_value))]
fn case_value(reader: &mut Reader, levels: u32) -> Result<TypedOperand, Failure>
    ensures { Reads (λ x. x) result reader.old reader.new levels case_value }
{
    let ty = reader.ty(Context::Plain, levels)?;
    let value = integer_operand(reader, levels)?;
    Ok(TypedOperand { ty, value })
}

/// type integer , label local
#[tactic(auto, unfolding(ir_grammar::specs::Terminators::case_rule))]
fn case(reader: &mut Reader, levels: u32) -> Result<SpelledCase, Failure>
    ensures { Reads (λ x. x) result reader.old reader.new levels case_rule }
{
    let value = case_value(reader, levels)?;
    let block = comma_block(reader, levels)?;
    Ok(SpelledCase {
        value,
        block: block.token,
    })
}

/// Whether a case is read at the next token, if only to refuse it.
#[tactic(auto, using(crate::proofs::CaseLists::starts_with_type))]
fn starts_case(reader: &Reader) -> bool
    ensures { result ≡ starts (first case_rule) reader.now.rest.now }
{
    reader.starts_type(Context::Plain)
}

/// (type integer , label local)*, behind those that were found.
#[tactic(auto, using(crate::proofs::CaseLists::cases_rule_more, crate::proofs::CaseLists::cases_rule_done, crate::proofs::CaseLists::cases_rule_failed, crate::proofs::CaseLists::cases_rule_take))]
fn cases_behind(
    reader: &mut Reader,
    found: Vec<SpelledCase>,
    levels: u32,
) -> Result<Vec<SpelledCase>, Failure>
    ensures { Gives (λ v. (v.items, reader.new.rest.now, store_of reader.new.found)) result (with_front found.items (read levels cases_rule reader.old.rest.now (store_of reader.old.found))) }
{
    let mut all = found;
    while starts_case(reader) {
        let next = case(reader, levels)?;
        all.push(next)?;
    }
    Ok(all)
}

/// (type integer , label local)*
#[tactic(auto, using(crate::proofs::CaseLists::cases_rule_from_none))]
fn cases_inside(reader: &mut Reader, levels: u32) -> Result<Vec<SpelledCase>, Failure>
    ensures { Reads (λ v. v.items) result reader.old reader.new levels cases_rule }
{
    let found = Vec::new(reader.alloc);
    cases_behind(reader, found, levels)
}

/// [ (type integer , label local)* ]
#[tactic(auto, unfolding(ir_grammar::specs::Terminators::cases), using(ir_grammar::proofs::Levels::inside_deeper))]
fn cases(reader: &mut Reader, levels: u32) -> Result<Vec<SpelledCase>, Failure>
    ensures { Reads (λ v. v.items) result reader.old reader.new levels cases }
{
    let at = reader.rest.len();
    reader.take(Kind::OpenSquare)?;
    let inner = Reader::deeper(levels, at)?;
    let found = cases_inside(reader, inner)?;
    reader.take(Kind::CloseSquare)?;
    Ok(found)
}

/// type value , label local [ (type integer , label local)* ], without attachments
#[tactic(auto, unfolding(ir_grammar::specs::Terminators::switch_head))]
fn switch_head(reader: &mut Reader, levels: u32) -> Result<SpelledOperation, Failure>
    ensures { Reads (λ x. x) result reader.old reader.new levels switch_head }
{
    let value = typed_operand(reader, levels)?;
    let other = comma_block(reader, levels)?;
    let found = cases(reader, levels)?;
    add_switch(reader, value, other.token, found.as_slice())
}

/// type value , label local [ (type integer , label local)* ]
#[tactic(auto, unfolding(ir_grammar::specs::Terminators::switch_rest))]
pub(crate) fn switch_rest(
    reader: &mut Reader,
    levels: u32,
) -> Result<(SpelledOperation, Vec<SpelledAttachment>), Failure>
    ensures { Reads (λ v. (v.0, v.1.items)) result reader.old reader.new levels switch_rest }
{
    let operation = switch_head(reader, levels)?;
    let found = attachments(reader, levels)?;
    Ok((operation, found))
}

/// Nothing but attachments.
#[tactic(auto, unfolding(ir_grammar::specs::Terminators::unreachable_rest))]
pub(crate) fn unreachable_rest(
    reader: &mut Reader,
    levels: u32,
) -> Result<(SpelledOperation, Vec<SpelledAttachment>), Failure>
    ensures { Reads (λ v. (v.0, v.1.items)) result reader.old reader.new levels unreachable_rest }
{
    let found = attachments(reader, levels)?;
    Ok((SpelledOperation::Unreachable, found))
}
