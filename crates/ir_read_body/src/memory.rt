ghost use Rattle.std.specs.Prelude.{◌≡◌};
ghost use Rattle.ir_grammar.specs.Grammar.{Gives, Reads, read, with_front};
ghost use Rattle.ir_grammar.specs.Spelled.{store_of};
ghost use Rattle.ir_grammar.specs.Instructions.{count_operand, count_rule, counted_end, uncounted_end, comma_end, alloca_plain, alloca_end, alloca_rest, access_words, access_end, load_rest, store_rest, step_index, step_indices, step_head, step_rest};

use crate::adding::add_step;
use crate::endings::{aligned_end, alignment_end, list_attachments, maybe_order, plain_end};
use crate::instructions::{instruction_flags, maybe_word};
use crate::operands::{comma_pointer, integer_operand, typed_operand};
use ir_grammar::{
    Context, Failure, Kind, Reader, SpelledAttachment, SpelledOperand, SpelledOperation, Terminal,
    TypedOperand, integers, refused_values, token_in,
};

/// What begins a value that is no integer: as the count of an alloca it is Unsupported, and so is what is refused as a value.
const NO_COUNTS: [Kind; 10] = [
    Kind::Local,
    Kind::LocalDefinition,
    Kind::Global,
    Kind::UsedGlobal,
    Kind::DebugGlobal,
    Kind::True,
    Kind::False,
    Kind::Null,
    Kind::ZeroWord,
    Kind::GetElementPtr,
];

/// integer, and Unsupported at what begins another value
#[tactic(auto, unfolding(ir_grammar::specs::Instructions::count_operand, ir_grammar::specs::Operands::integer_operand, ir_grammar::specs::Operands::word_operand))]
fn count_operand(reader: &mut Reader, levels: u32) -> Result<SpelledOperand, Failure>
    ensures { Reads (λ x. x) result reader.old reader.new levels count_operand }
{
    if reader.next_among(integers()) {
        return integer_operand(reader, levels);
    }
    Err(reader.refuse_either(&NO_COUNTS, refused_values()))
}

/// type integer
#[tactic(auto, unfolding(ir_grammar::specs::Instructions::count_rule))]
fn alloca_count(reader: &mut Reader, levels: u32) -> Result<TypedOperand, Failure>
    ensures { Reads (λ x. x) result reader.old reader.new levels count_rule }
{
    let ty = reader.ty(Context::Plain, levels)?;
    let value = count_operand(reader, levels)?;
    Ok(TypedOperand { ty, value })
}

/// type integer (, align integer)? and attachments
#[tactic(auto, unfolding(ir_grammar::specs::Instructions::counted_end))]
fn counted_end(
    reader: &mut Reader,
    levels: u32,
) -> Result<
    (
        Option<TypedOperand>,
        (Option<Terminal>, Vec<SpelledAttachment>),
    ),
    Failure,
>
    ensures { Reads (λ v. (v.0, (v.1.0, v.1.1.items))) result reader.old reader.new levels counted_end }
{
    let count = alloca_count(reader, levels)?;
    let end = aligned_end(reader, levels)?;
    Ok((Some(count), end))
}

/// align integer and attachments
#[tactic(auto, unfolding(ir_grammar::specs::Instructions::uncounted_end))]
fn uncounted_end(
    reader: &mut Reader,
    levels: u32,
) -> Result<
    (
        Option<TypedOperand>,
        (Option<Terminal>, Vec<SpelledAttachment>),
    ),
    Failure,
>
    ensures { Reads (λ v. (v.0, (v.1.0, v.1.1.items))) result reader.old reader.new levels uncounted_end }
{
    let end = alignment_end(reader, levels)?;
    Ok((None, end))
}

/// Behind a comma: type integer (, align integer)? | align integer, and attachments.
#[tactic(auto, unfolding(ir_grammar::specs::Instructions::comma_end, ir_grammar::specs::Instructions::uncounted_end, ir_grammar::specs::Operands::alignment_end, ir_grammar::specs::Operands::stated_alignment))]
fn comma_end(
    reader: &mut Reader,
    levels: u32,
) -> Result<
    (
        Option<TypedOperand>,
        (Option<Terminal>, Vec<SpelledAttachment>),
    ),
    Failure,
>
    ensures { Reads (λ v. (v.0, (v.1.0, v.1.1.items))) result reader.old reader.new levels comma_end }
{
    reader.take(Kind::Comma)?;
    if reader.next_is(Kind::Align) {
        return uncounted_end(reader, levels);
    }
    counted_end(reader, levels)
}

/// Nothing but attachments.
#[tactic(auto, unfolding(ir_grammar::specs::Instructions::alloca_plain))]
fn alloca_plain(
    reader: &mut Reader,
    levels: u32,
) -> Result<
    (
        Option<TypedOperand>,
        (Option<Terminal>, Vec<SpelledAttachment>),
    ),
    Failure,
>
    ensures { Reads (λ v. (v.0, (v.1.0, v.1.1.items))) result reader.old reader.new levels alloca_plain }
{
    let end = plain_end(reader, levels)?;
    Ok((None, end))
}

/// (, type integer)? (, align integer)? and attachments
#[tactic(auto, unfolding(ir_grammar::specs::Instructions::alloca_end, ir_grammar::specs::Instructions::comma_end))]
fn alloca_end(
    reader: &mut Reader,
    levels: u32,
) -> Result<
    (
        Option<TypedOperand>,
        (Option<Terminal>, Vec<SpelledAttachment>),
    ),
    Failure,
>
    ensures { Reads (λ v. (v.0, (v.1.0, v.1.1.items))) result reader.old reader.new levels alloca_end }
{
    if reader.next_is(Kind::Comma) {
        return comma_end(reader, levels);
    }
    alloca_plain(reader, levels)
}

/// type (, type integer)? (, align integer)?
#[tactic(auto, unfolding(ir_grammar::specs::Instructions::alloca_rest))]
pub(crate) fn alloca_rest(
    reader: &mut Reader,
    levels: u32,
) -> Result<(SpelledOperation, Vec<SpelledAttachment>), Failure>
    ensures { Reads (λ v. (v.0, v.1.items)) result reader.old reader.new levels alloca_rest }
{
    let ty = reader.ty(Context::Plain, levels)?;
    let (count, (alignment, found)) = alloca_end(reader, levels)?;
    Ok((
        SpelledOperation::Alloca {
            ty,
            count,
            alignment: token_in(alignment),
        },
        found,
    ))
}

/// atomic? volatile?
#[tactic(auto, unfolding(ir_grammar::specs::Instructions::access_words))]
fn access_words(reader: &mut Reader, levels: u32) -> Result<(), Failure>
    ensures { Reads (λ x. x) result reader.old reader.new levels access_words }
{
    maybe_word(reader, Kind::Atomic, levels)?;
    maybe_word(reader, Kind::Volatile, levels)?;
    Ok(())
}

/// order? (, align integer)? and attachments
#[tactic(auto, unfolding(ir_grammar::specs::Instructions::access_end))]
fn access_end(
    reader: &mut Reader,
    levels: u32,
) -> Result<(Option<Terminal>, Vec<SpelledAttachment>), Failure>
    ensures { Reads (λ v. (v.0, v.1.items)) result reader.old reader.new levels access_end }
{
    maybe_order(reader, levels)?;
    aligned_end(reader, levels)
}

/// atomic? volatile? type , ptr value order? (, align integer)?
#[tactic(auto, unfolding(ir_grammar::specs::Instructions::load_rest))]
pub(crate) fn load_rest(
    reader: &mut Reader,
    levels: u32,
) -> Result<(SpelledOperation, Vec<SpelledAttachment>), Failure>
    ensures { Reads (λ v. (v.0, v.1.items)) result reader.old reader.new levels load_rest }
{
    access_words(reader, levels)?;
    let ty = reader.ty(Context::Plain, levels)?;
    let pointer = comma_pointer(reader, levels)?;
    let (alignment, found) = access_end(reader, levels)?;
    Ok((
        SpelledOperation::Load {
            ty,
            pointer,
            alignment: token_in(alignment),
        },
        found,
    ))
}

/// atomic? volatile? type value , ptr value order? (, align integer)?
#[tactic(auto, unfolding(ir_grammar::specs::Instructions::store_rest))]
pub(crate) fn store_rest(
    reader: &mut Reader,
    levels: u32,
) -> Result<(SpelledOperation, Vec<SpelledAttachment>), Failure>
    ensures { Reads (λ v. (v.0, v.1.items)) result reader.old reader.new levels store_rest }
{
    access_words(reader, levels)?;
    let value = typed_operand(reader, levels)?;
    let pointer = comma_pointer(reader, levels)?;
    let (alignment, found) = access_end(reader, levels)?;
    Ok((
        SpelledOperation::Store {
            value,
            pointer,
            alignment: token_in(alignment),
        },
        found,
    ))
}

/// , type value
#[tactic(auto, unfolding(ir_grammar::specs::Instructions::step_index))]
fn step_index(reader: &mut Reader, levels: u32) -> Result<TypedOperand, Failure>
    ensures { Reads (λ x. x) result reader.old reader.new levels step_index }
{
    reader.take(Kind::Comma)?;
    typed_operand(reader, levels)
}

/// (, type value)*, behind those that were found.
#[tactic(auto, using(crate::proofs::StepLists::step_indices_more, crate::proofs::StepLists::step_indices_done, crate::proofs::StepLists::step_indices_failed, crate::proofs::StepLists::step_indices_take))]
fn indices_behind(
    reader: &mut Reader,
    found: Vec<TypedOperand>,
    levels: u32,
) -> Result<Vec<TypedOperand>, Failure>
    ensures { Gives (λ v. (v.items, reader.new.rest.now, store_of reader.new.found)) result (with_front found.items (read levels step_indices reader.old.rest.now (store_of reader.old.found))) }
{
    let mut all = found;
    while reader.next_is(Kind::Comma) {
        let next = step_index(reader, levels)?;
        all.push(next)?;
    }
    Ok(all)
}

/// (, type value)*
#[tactic(auto, using(crate::proofs::StepLists::step_indices_from_none))]
fn step_indices(reader: &mut Reader, levels: u32) -> Result<Vec<TypedOperand>, Failure>
    ensures { Reads (λ v. v.items) result reader.old reader.new levels step_indices }
{
    let found = Vec::new(reader.alloc);
    indices_behind(reader, found, levels)
}

/// flag* type , ptr value (, type value)*, without attachments
#[tactic(auto, unfolding(ir_grammar::specs::Instructions::step_head))]
fn step_head(reader: &mut Reader, levels: u32) -> Result<SpelledOperation, Failure>
    ensures { Reads (λ x. x) result reader.old reader.new levels step_head }
{
    instruction_flags(reader, levels)?;
    let of = reader.ty(Context::Plain, levels)?;
    let base = comma_pointer(reader, levels)?;
    let found = step_indices(reader, levels)?;
    add_step(reader, of, base, found.as_slice())
}

/// flag* type , ptr value (, type value)*
#[tactic(auto, unfolding(ir_grammar::specs::Instructions::step_rest))]
pub(crate) fn step_rest(
    reader: &mut Reader,
    levels: u32,
) -> Result<(SpelledOperation, Vec<SpelledAttachment>), Failure>
    ensures { Reads (λ v. (v.0, v.1.items)) result reader.old reader.new levels step_rest }
{
    let operation = step_head(reader, levels)?;
    let found = list_attachments(reader, levels)?;
    Ok((operation, found))
}
