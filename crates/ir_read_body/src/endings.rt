ghost use Rattle.std.specs.Prelude.{◌≡◌};
ghost use Rattle.ir_grammar.specs.Grammar.{Gives, Reads, read, with_front};
ghost use Rattle.ir_grammar.specs.Spelled.{store_of};
ghost use Rattle.ir_grammar.specs.Operands.{inline_node, attached_node, attachment_rule, comma_attachment, attachments, list_attachments, small_alignment, stated_alignment, alignment_end, plain_end, aligned_end, scope_rule, scope, order, maybe_order};

use ir_grammar::{Failure, Kind, Reader, SpelledAttachment, Terminal, meta_names, texts};

/// bang { any } | metaname ( any ), by its first token
#[tactic(auto, unfolding(ir_grammar::specs::Operands::inline_node))]
fn inline_node(reader: &mut Reader, levels: u32) -> Result<Terminal, Failure>
    ensures { Reads (λ x. x) result reader.old reader.new levels inline_node }
{
    if reader.next_is(Kind::Bang) {
        let first = reader.take(Kind::Bang)?;
        reader.in_braces(levels)?;
        return Ok(first);
    }
    let first = reader.take_among(meta_names())?;
    reader.in_parens(levels)?;
    Ok(first)
}

/// metanum | node, by its first token
#[tactic(auto, unfolding(ir_grammar::specs::Operands::attached_node))]
fn attached_node(reader: &mut Reader, levels: u32) -> Result<Terminal, Failure>
    ensures { Reads (λ x. x) result reader.old reader.new levels attached_node }
{
    if reader.next_is(Kind::MetaNumber) {
        return reader.take(Kind::MetaNumber);
    }
    inline_node(reader, levels)
}

/// metaname (metanum | node)
#[tactic(auto, unfolding(ir_grammar::specs::Operands::attachment_rule))]
fn attachment(reader: &mut Reader, levels: u32) -> Result<SpelledAttachment, Failure>
    ensures { Reads (λ x. x) result reader.old reader.new levels attachment_rule }
{
    let name = reader.take_among(meta_names())?;
    let node = attached_node(reader, levels)?;
    Ok(SpelledAttachment {
        name: name.token,
        node: node.token,
    })
}

/// , metaname (metanum | node)
#[tactic(auto, unfolding(ir_grammar::specs::Operands::comma_attachment))]
fn comma_attachment(reader: &mut Reader, levels: u32) -> Result<SpelledAttachment, Failure>
    ensures { Reads (λ x. x) result reader.old reader.new levels comma_attachment }
{
    reader.comma()?;
    attachment(reader, levels)
}

/// (, metaname (metanum | node))*, behind those that were found.
#[tactic(auto, using(crate::proofs::EndingLists::attachments_more, crate::proofs::EndingLists::attachments_done, crate::proofs::EndingLists::attachments_failed, crate::proofs::EndingLists::attachments_take))]
fn attachments_behind(
    reader: &mut Reader,
    found: Vec<SpelledAttachment>,
    levels: u32,
) -> Result<Vec<SpelledAttachment>, Failure>
    ensures { Gives (λ v. (v.items, reader.new.rest.now, store_of reader.new.found)) result (with_front found.items (read levels attachments reader.old.rest.now (store_of reader.old.found))) }
{
    let mut all = found;
    while reader.comma_is_next() {
        let next = comma_attachment(reader, levels)?;
        all.push(next)?;
    }
    Ok(all)
}

/// (, metaname (metanum | node))*
#[tactic(auto, using(crate::proofs::EndingLists::attachments_from_none))]
pub(crate) fn attachments(
    reader: &mut Reader,
    levels: u32,
) -> Result<Vec<SpelledAttachment>, Failure>
    ensures { Reads (λ v. v.items) result reader.old reader.new levels attachments }
{
    let found = Vec::new(reader.alloc);
    attachments_behind(reader, found, levels)
}

/// (, metaname (metanum | node))* behind a list with commas of its own
#[tactic(auto, unfolding(ir_grammar::specs::Operands::list_attachments))]
pub(crate) fn list_attachments(
    reader: &mut Reader,
    levels: u32,
) -> Result<Vec<SpelledAttachment>, Failure>
    ensures { Reads (λ v. v.items) result reader.old reader.new levels list_attachments }
{
    if reader.next_is(Kind::MetaComma) {
        reader.take(Kind::MetaComma)?;
        let first = attachment(reader, levels)?;
        let found = vec![in reader.alloc; first]?;
        return attachments_behind(reader, found, levels);
    }
    Ok(Vec::new(reader.alloc))
}

/// A power of two up to 16; above that Unsupported.
#[tactic(auto, unfolding(ir_grammar::specs::Operands::small_alignment))]
fn small_alignment(reader: &mut Reader, levels: u32) -> Result<Terminal, Failure>
    ensures { Reads (λ x. x) result reader.old reader.new levels small_alignment }
{
    if reader.next_is(Kind::SmallPower) {
        return reader.take(Kind::SmallPower);
    }
    Err(reader.refuse(&[Kind::Power, Kind::GreatPower]))
}

/// align integer
#[tactic(auto, unfolding(ir_grammar::specs::Operands::stated_alignment))]
fn stated_alignment(reader: &mut Reader, levels: u32) -> Result<Terminal, Failure>
    ensures { Reads (λ x. x) result reader.old reader.new levels stated_alignment }
{
    reader.take(Kind::Align)?;
    small_alignment(reader, levels)
}

/// align integer (, metaname (metanum | node))*
#[tactic(auto, unfolding(ir_grammar::specs::Operands::alignment_end))]
pub(crate) fn alignment_end(
    reader: &mut Reader,
    levels: u32,
) -> Result<(Option<Terminal>, Vec<SpelledAttachment>), Failure>
    ensures { Reads (λ v. (v.0, v.1.items)) result reader.old reader.new levels alignment_end }
{
    let alignment = stated_alignment(reader, levels)?;
    let found = attachments(reader, levels)?;
    Ok((Some(alignment), found))
}

/// Nothing, and attachments.
#[tactic(auto, unfolding(ir_grammar::specs::Operands::plain_end))]
pub(crate) fn plain_end(
    reader: &mut Reader,
    levels: u32,
) -> Result<(Option<Terminal>, Vec<SpelledAttachment>), Failure>
    ensures { Reads (λ v. (v.0, v.1.items)) result reader.old reader.new levels plain_end }
{
    let found = list_attachments(reader, levels)?;
    Ok((None, found))
}

/// (, align integer)? (, metaname (metanum | node))*
#[tactic(auto, unfolding(ir_grammar::specs::Operands::aligned_end))]
pub(crate) fn aligned_end(
    reader: &mut Reader,
    levels: u32,
) -> Result<(Option<Terminal>, Vec<SpelledAttachment>), Failure>
    ensures { Reads (λ v. (v.0, v.1.items)) result reader.old reader.new levels aligned_end }
{
    if reader.next_is(Kind::Comma) {
        reader.take(Kind::Comma)?;
        return alignment_end(reader, levels);
    }
    plain_end(reader, levels)
}

/// syncscope ( string )
#[tactic(auto, unfolding(ir_grammar::specs::Operands::scope), using(ir_grammar::proofs::Levels::inside_deeper))]
fn scope(reader: &mut Reader, levels: u32) -> Result<(), Failure>
    ensures { Reads (λ x. x) result reader.old reader.new levels scope }
{
    reader.take(Kind::SyncScope)?;
    let at = reader.rest.len();
    reader.take(Kind::OpenParen)?;
    let inner = Reader::deeper(levels, at)?;
    scope_inside(reader, inner)?;
    reader.take(Kind::CloseParen)?;
    Ok(())
}

/// A scope's string.
#[tactic(auto, unfolding(ir_grammar::specs::Operands::scope_rule))]
fn scope_inside(reader: &mut Reader, levels: u32) -> Result<(), Failure>
    ensures { Reads (λ x. x) result reader.old reader.new levels scope_rule }
{
    reader.take_among(texts())?;
    Ok(())
}

/// An ordering without a scope, or with one before it.
#[tactic(auto, unfolding(ir_grammar::specs::Operands::order))]
pub(crate) fn order(reader: &mut Reader, levels: u32) -> Result<(), Failure>
    ensures { Reads (λ x. x) result reader.old reader.new levels order }
{
    if reader.next_is(Kind::Order) {
        reader.take(Kind::Order)?;
        return Ok(());
    }
    scope(reader, levels)?;
    reader.take(Kind::Order)?;
    Ok(())
}

/// order?
#[tactic(auto, unfolding(ir_grammar::specs::Operands::maybe_order, ir_grammar::specs::Operands::order, ir_grammar::specs::Operands::scope))]
pub(crate) fn maybe_order(reader: &mut Reader, levels: u32) -> Result<(), Failure>
    ensures { Reads (λ x. x) result reader.old reader.new levels maybe_order }
{
    if reader.next_among(&[Kind::Order, Kind::SyncScope]) {
        order(reader, levels)?;
    }
    Ok(())
}
