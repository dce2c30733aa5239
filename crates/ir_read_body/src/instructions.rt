ghost use Rattle.std.specs.Prelude.{◌≡◌};
ghost use Rattle.ir_grammar.specs.Grammar.{Reads};
ghost use Rattle.ir_grammar.specs.Instructions.{instruction_flags, maybe_word, two_operands, binary_rest, predicate, icmp_rest, cast_rest, freeze_rest, select_rest, pair_rule, pair_type, extract_rest};

use crate::endings::attachments;
use crate::operands::{bit_operand, bit_word, comma_operand, comma_typed, operand, typed_operand};
use ir_grammar::{
    Context, Failure, Kind, Reader, SpelledAttachment, SpelledOperand, SpelledOperation, Terminal,
    TypedOperand, integers, refused_types,
};

/// flag*, in an instruction
#[tactic(auto, using(crate::proofs::FlagLists::flags_more, crate::proofs::FlagLists::flags_done, crate::proofs::FlagLists::flags_failed, crate::proofs::FlagLists::flag_takes))]
pub(crate) fn instruction_flags(reader: &mut Reader, levels: u32) -> Result<(), Failure>
    ensures { Reads (λ x. x) result reader.old reader.new levels instruction_flags }
{
    while reader.next_is(Kind::Flag) {
        reader.take(Kind::Flag)?;
    }
    Ok(())
}

/// A word of this kind, or none.
#[tactic(auto, unfolding(ir_grammar::specs::Instructions::maybe_word))]
pub(crate) fn maybe_word(reader: &mut Reader, kind: Kind, levels: u32) -> Result<(), Failure>
    ensures { Reads (λ x. x) result reader.old reader.new levels (maybe_word kind) }
{
    if reader.next_is(kind) {
        reader.take(kind)?;
    }
    Ok(())
}

/// type value , value
#[tactic(auto, unfolding(ir_grammar::specs::Instructions::two_operands))]
fn two_operands(reader: &mut Reader, levels: u32) -> Result<(TypedOperand, SpelledOperand), Failure>
    ensures { Reads (λ x. x) result reader.old reader.new levels two_operands }
{
    let a = typed_operand(reader, levels)?;
    let b = comma_operand(reader, levels)?;
    Ok((a, b))
}

/// flag* type value , value
#[tactic(auto, unfolding(ir_grammar::specs::Instructions::binary_rest))]
pub(crate) fn binary_rest(
    reader: &mut Reader,
    levels: u32,
) -> Result<(SpelledOperation, Vec<SpelledAttachment>), Failure>
    ensures { Reads (λ v. (v.0, v.1.items)) result reader.old reader.new levels binary_rest }
{
    instruction_flags(reader, levels)?;
    let (a, b) = two_operands(reader, levels)?;
    let found = attachments(reader, levels)?;
    Ok((SpelledOperation::Binary { a, b }, found))
}

/// samesign? pred
#[tactic(auto, unfolding(ir_grammar::specs::Instructions::predicate))]
fn predicate(reader: &mut Reader, levels: u32) -> Result<Terminal, Failure>
    ensures { Reads (λ x. x) result reader.old reader.new levels predicate }
{
    maybe_word(reader, Kind::SameSign, levels)?;
    reader.take(Kind::Predicate)
}

/// samesign? pred type value , value
#[tactic(auto, unfolding(ir_grammar::specs::Instructions::icmp_rest))]
pub(crate) fn icmp_rest(
    reader: &mut Reader,
    levels: u32,
) -> Result<(SpelledOperation, Vec<SpelledAttachment>), Failure>
    ensures { Reads (λ v. (v.0, v.1.items)) result reader.old reader.new levels icmp_rest }
{
    let word = predicate(reader, levels)?;
    let (a, b) = two_operands(reader, levels)?;
    let found = attachments(reader, levels)?;
    Ok((
        SpelledOperation::Icmp {
            predicate: word.token,
            a,
            b,
        },
        found,
    ))
}

/// flag* type value to type
#[tactic(auto, unfolding(ir_grammar::specs::Instructions::cast_rest))]
pub(crate) fn cast_rest(
    reader: &mut Reader,
    levels: u32,
) -> Result<(SpelledOperation, Vec<SpelledAttachment>), Failure>
    ensures { Reads (λ v. (v.0, v.1.items)) result reader.old reader.new levels cast_rest }
{
    instruction_flags(reader, levels)?;
    let a = typed_operand(reader, levels)?;
    reader.take(Kind::To)?;
    let to = reader.ty(Context::Plain, levels)?;
    let found = attachments(reader, levels)?;
    Ok((SpelledOperation::Cast { a, to }, found))
}

/// type value
#[tactic(auto, unfolding(ir_grammar::specs::Instructions::freeze_rest))]
pub(crate) fn freeze_rest(
    reader: &mut Reader,
    levels: u32,
) -> Result<(SpelledOperation, Vec<SpelledAttachment>), Failure>
    ensures { Reads (λ v. (v.0, v.1.items)) result reader.old reader.new levels freeze_rest }
{
    let a = typed_operand(reader, levels)?;
    let found = attachments(reader, levels)?;
    Ok((SpelledOperation::Freeze { a }, found))
}

/// i1 value , type value , type value
#[tactic(auto, unfolding(ir_grammar::specs::Instructions::select_rest))]
pub(crate) fn select_rest(
    reader: &mut Reader,
    levels: u32,
) -> Result<(SpelledOperation, Vec<SpelledAttachment>), Failure>
    ensures { Reads (λ v. (v.0, v.1.items)) result reader.old reader.new levels select_rest }
{
    let condition = bit_operand(reader, levels)?;
    let a = comma_typed(reader, levels)?;
    let b = comma_typed(reader, levels)?;
    let found = attachments(reader, levels)?;
    Ok((SpelledOperation::Select { condition, a, b }, found))
}

/// type , i1
#[tactic(auto, unfolding(ir_grammar::specs::Instructions::pair_rule))]
fn pair_inside(reader: &mut Reader, levels: u32) -> Result<usize, Failure>
    ensures { Reads (λ x. x) result reader.old reader.new levels pair_rule }
{
    let of = reader.ty(Context::Plain, levels)?;
    reader.comma()?;
    bit_word(reader, levels)?;
    Ok(of)
}

/// { type , i1 }, where a production asks for it
#[tactic(auto, unfolding(ir_grammar::specs::Instructions::pair_type), using(ir_grammar::proofs::Levels::inside_deeper))]
fn pair_type(reader: &mut Reader, levels: u32) -> Result<usize, Failure>
    ensures { Reads (λ x. x) result reader.old reader.new levels pair_type }
{
    if reader.next_is(Kind::OpenBrace) {
        let at = reader.rest.len();
        reader.take(Kind::OpenBrace)?;
        let inner = Reader::deeper(levels, at)?;
        let of = pair_inside(reader, inner)?;
        reader.take(Kind::CloseBrace)?;
        return Ok(of);
    }
    Err(reader.refuse(refused_types(Context::Plain)))
}

/// { type , i1 } value , integer
#[tactic(auto, unfolding(ir_grammar::specs::Instructions::extract_rest))]
pub(crate) fn extract_rest(
    reader: &mut Reader,
    levels: u32,
) -> Result<(SpelledOperation, Vec<SpelledAttachment>), Failure>
    ensures { Reads (λ v. (v.0, v.1.items)) result reader.old reader.new levels extract_rest }
{
    let of = pair_type(reader, levels)?;
    let value = operand(reader, levels)?;
    reader.comma()?;
    let part = reader.take_among(integers())?;
    let found = attachments(reader, levels)?;
    Ok((
        SpelledOperation::ExtractValue {
            of,
            value,
            part: part.token,
        },
        found,
    ))
}
