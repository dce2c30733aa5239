ghost use Rattle.std.specs.Prelude.{◌≡◌};
ghost use Rattle.ir_grammar.specs.Grammar.{Gives, Reads, read, with_front};
ghost use Rattle.ir_grammar.specs.Spelled.{store_of};
ghost use Rattle.ir_grammar.specs.Instructions.{incoming_rule, incoming_squares, comma_incoming, more_incoming, all_incoming, phi_head, phi_rest};

use crate::adding::add_phi;
use crate::endings::list_attachments;
use crate::operands::operand;
use ir_grammar::{
    Context, Failure, Kind, Reader, SpelledAttachment, SpelledIncoming, SpelledOperation, locals,
};

/// value , local
#[tactic(auto, unfolding(ir_grammar::specs::Instructions::incoming_rule))]
fn incoming_inside(reader: &mut Reader, levels: u32) -> Result<SpelledIncoming, Failure>
    ensures { Reads (λ x. x) result reader.old reader.new levels incoming_rule }
{
    let value = operand(reader, levels)?;
    reader.comma()?;
    let block = reader.take_among(locals())?;
    Ok(SpelledIncoming {
        value,
        block: block.token,
    })
}

/// [ value , local ]
#[tactic(auto, unfolding(ir_grammar::specs::Instructions::incoming_squares), using(ir_grammar::proofs::Levels::inside_deeper))]
fn incoming_squares(reader: &mut Reader, levels: u32) -> Result<SpelledIncoming, Failure>
    ensures { Reads (λ x. x) result reader.old reader.new levels incoming_squares }
{
    let at = reader.rest.len();
    reader.take(Kind::OpenSquare)?;
    let inner = Reader::deeper(levels, at)?;
    let found = incoming_inside(reader, inner)?;
    reader.take(Kind::CloseSquare)?;
    Ok(found)
}

/// , [ value , local ]
#[tactic(auto, unfolding(ir_grammar::specs::Instructions::comma_incoming))]
fn comma_incoming(reader: &mut Reader, levels: u32) -> Result<SpelledIncoming, Failure>
    ensures { Reads (λ x. x) result reader.old reader.new levels comma_incoming }
{
    reader.take(Kind::Comma)?;
    incoming_squares(reader, levels)
}

/// (, [ value , local ])*, behind those that were found.
#[tactic(auto, using(crate::proofs::PhiLists::more_incoming_more, crate::proofs::PhiLists::more_incoming_done, crate::proofs::PhiLists::more_incoming_failed, crate::proofs::PhiLists::more_incoming_take))]
fn incoming_behind(
    reader: &mut Reader,
    found: Vec<SpelledIncoming>,
    levels: u32,
) -> Result<Vec<SpelledIncoming>, Failure>
    ensures { Gives (λ v. (v.items, reader.new.rest.now, store_of reader.new.found)) result (with_front found.items (read levels more_incoming reader.old.rest.now (store_of reader.old.found))) }
{
    let mut all = found;
    while reader.next_is(Kind::Comma) {
        let next = comma_incoming(reader, levels)?;
        all.push(next)?;
    }
    Ok(all)
}

/// ([ value , local ])%
#[tactic(auto, unfolding(ir_grammar::specs::Instructions::all_incoming))]
fn all_incoming(reader: &mut Reader, levels: u32) -> Result<Vec<SpelledIncoming>, Failure>
    ensures { Reads (λ v. v.items) result reader.old reader.new levels all_incoming }
{
    let first = incoming_squares(reader, levels)?;
    let found = vec![in reader.alloc; first]?;
    incoming_behind(reader, found, levels)
}

/// type ([ value , local ])%, without attachments
#[tactic(auto, unfolding(ir_grammar::specs::Instructions::phi_head))]
fn phi_head(reader: &mut Reader, levels: u32) -> Result<SpelledOperation, Failure>
    ensures { Reads (λ x. x) result reader.old reader.new levels phi_head }
{
    let ty = reader.ty(Context::Plain, levels)?;
    let found = all_incoming(reader, levels)?;
    add_phi(reader, ty, found.as_slice())
}

/// type ([ value , local ])%
#[tactic(auto, unfolding(ir_grammar::specs::Instructions::phi_rest))]
pub(crate) fn phi_rest(
    reader: &mut Reader,
    levels: u32,
) -> Result<(SpelledOperation, Vec<SpelledAttachment>), Failure>
    ensures { Reads (λ v. (v.0, v.1.items)) result reader.old reader.new levels phi_rest }
{
    let operation = phi_head(reader, levels)?;
    let found = list_attachments(reader, levels)?;
    Ok((operation, found))
}
