ghost use Rattle.std.specs.Prelude.{◌≡◌};
ghost use Rattle.ir_grammar.specs.Grammar.{Reads};
ghost use Rattle.ir_grammar.specs.Instructions.{fence_rest, ordered_end, rmw_word, rmw_rest, exchange_words, exchange_pointer, exchange_end, exchange_rest};

use crate::endings::{aligned_end, attachments, order};
use crate::instructions::maybe_word;
use crate::operands::{comma_typed, pointer_operand};
use ir_grammar::{
    Failure, Kind, Reader, SpelledAttachment, SpelledOperand, SpelledOperation, Terminal, token_in,
};

/// order
#[tactic(auto, unfolding(ir_grammar::specs::Instructions::fence_rest))]
pub(crate) fn fence_rest(
    reader: &mut Reader,
    levels: u32,
) -> Result<(SpelledOperation, Vec<SpelledAttachment>), Failure>
    ensures { Reads (λ v. (v.0, v.1.items)) result reader.old reader.new levels fence_rest }
{
    order(reader, levels)?;
    let found = attachments(reader, levels)?;
    Ok((SpelledOperation::Fence, found))
}

/// order (, align integer)? and attachments
#[tactic(auto, unfolding(ir_grammar::specs::Instructions::ordered_end))]
fn ordered_end(
    reader: &mut Reader,
    levels: u32,
) -> Result<(Option<Terminal>, Vec<SpelledAttachment>), Failure>
    ensures { Reads (λ v. (v.0, v.1.items)) result reader.old reader.new levels ordered_end }
{
    order(reader, levels)?;
    aligned_end(reader, levels)
}

/// volatile? rmw
#[tactic(auto, unfolding(ir_grammar::specs::Instructions::rmw_word))]
fn rmw_word(reader: &mut Reader, levels: u32) -> Result<Terminal, Failure>
    ensures { Reads (λ x. x) result reader.old reader.new levels rmw_word }
{
    maybe_word(reader, Kind::Volatile, levels)?;
    reader.take_among(&[Kind::BinaryRmw, Kind::Rmw])
}

/// volatile? rmw ptr value , type value order (, align integer)?
#[tactic(auto, unfolding(ir_grammar::specs::Instructions::rmw_rest))]
pub(crate) fn rmw_rest(
    reader: &mut Reader,
    levels: u32,
) -> Result<(SpelledOperation, Vec<SpelledAttachment>), Failure>
    ensures { Reads (λ v. (v.0, v.1.items)) result reader.old reader.new levels rmw_rest }
{
    let operator = rmw_word(reader, levels)?;
    let pointer = pointer_operand(reader, levels)?;
    let value = comma_typed(reader, levels)?;
    let (alignment, found) = ordered_end(reader, levels)?;
    Ok((
        SpelledOperation::AtomicRmw {
            operator: operator.token,
            pointer,
            value,
            alignment: token_in(alignment),
        },
        found,
    ))
}

/// weak? volatile?
#[tactic(auto, unfolding(ir_grammar::specs::Instructions::exchange_words))]
fn exchange_words(reader: &mut Reader, levels: u32) -> Result<(), Failure>
    ensures { Reads (λ x. x) result reader.old reader.new levels exchange_words }
{
    maybe_word(reader, Kind::Weak, levels)?;
    maybe_word(reader, Kind::Volatile, levels)?;
    Ok(())
}

/// weak? volatile? ptr value
#[tactic(auto, unfolding(ir_grammar::specs::Instructions::exchange_pointer))]
fn exchange_pointer(reader: &mut Reader, levels: u32) -> Result<SpelledOperand, Failure>
    ensures { Reads (λ x. x) result reader.old reader.new levels exchange_pointer }
{
    exchange_words(reader, levels)?;
    pointer_operand(reader, levels)
}

/// order order (, align integer)? and attachments
#[tactic(auto, unfolding(ir_grammar::specs::Instructions::exchange_end))]
fn exchange_end(
    reader: &mut Reader,
    levels: u32,
) -> Result<(Option<Terminal>, Vec<SpelledAttachment>), Failure>
    ensures { Reads (λ v. (v.0, v.1.items)) result reader.old reader.new levels exchange_end }
{
    order(reader, levels)?;
    ordered_end(reader, levels)
}

/// weak? volatile? ptr value , type value , type value order order (, align integer)?
#[tactic(auto, unfolding(ir_grammar::specs::Instructions::exchange_rest))]
pub(crate) fn exchange_rest(
    reader: &mut Reader,
    levels: u32,
) -> Result<(SpelledOperation, Vec<SpelledAttachment>), Failure>
    ensures { Reads (λ v. (v.0, v.1.items)) result reader.old reader.new levels exchange_rest }
{
    let pointer = exchange_pointer(reader, levels)?;
    let expected = comma_typed(reader, levels)?;
    let new = comma_typed(reader, levels)?;
    let (alignment, found) = exchange_end(reader, levels)?;
    Ok((
        SpelledOperation::CmpXchg {
            pointer,
            expected,
            new,
            alignment: token_in(alignment),
        },
        found,
    ))
}
