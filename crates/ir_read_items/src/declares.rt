ghost use Rattle.std.specs.Prelude.{◌≡◌};
ghost use Rattle.ir_grammar.specs.Reading.{starts, first};
ghost use Rattle.ir_grammar.specs.Grammar.{Reads};
ghost use Rattle.ir_read_items.specs.Items.{attachments, declare_attachment, declare_part, declare_tail, declare_head, declare_parameters, declare_item};

use crate::globals::attachment;
use ir_grammar::{Context, Failure, Kind, Reader, SpelledParameter};

/// (metaname metanum)*
#[tactic(auto, using(crate::proofs::ItemLists::attachments_more, crate::proofs::ItemLists::attachments_done, crate::proofs::ItemLists::attachments_failed, crate::proofs::ItemLists::attachments_take))]
fn attachments(reader: &mut Reader, levels: u32) -> Result<(), Failure>
    ensures { Reads (λ x. x) result reader.old reader.new levels attachments }
{
    while reader.next_among(&[Kind::MetaName, Kind::MetaDefinition]) {
        attachment(reader, levels)?;
    }
    Ok(())
}

/// A metaname before something else than `=`, and a metanum.
#[tactic(auto, unfolding(crate::specs::Items::declare_attachment))]
fn declare_attachment(reader: &mut Reader, levels: u32) -> Result<(), Failure>
    ensures { Reads (λ x. x) result reader.old reader.new levels declare_attachment }
{
    reader.take(Kind::MetaName)?;
    reader.take(Kind::MetaNumber)?;
    Ok(())
}

/// metaname metanum | attr
#[tactic(auto, unfolding(crate::specs::Items::declare_part, crate::specs::Items::declare_attachment))]
fn declare_part(reader: &mut Reader, levels: u32) -> Result<(), Failure>
    ensures { Reads (λ x. x) result reader.old reader.new levels declare_part }
{
    if reader.next_is(Kind::MetaName) {
        return declare_attachment(reader, levels);
    }
    reader.attribute(Context::DeclareTail, levels)
}

/// Whether a part behind a declare's parameters is read at the next token, if only to refuse it.
#[tactic(auto, using(crate::proofs::ItemLists::part_starts))]
fn starts_part(reader: &Reader) -> bool
    ensures { result ≡ starts (first declare_part) reader.now.rest.now }
{
    reader.next_is(Kind::MetaName) || reader.starts_attribute(Context::DeclareTail)
}

/// ftail*
#[tactic(auto, using(crate::proofs::ItemLists::parts_more, crate::proofs::ItemLists::parts_done, crate::proofs::ItemLists::parts_failed, crate::proofs::ItemLists::parts_take))]
fn declare_tail(reader: &mut Reader, levels: u32) -> Result<(), Failure>
    ensures { Reads (λ x. x) result reader.old reader.new levels declare_tail }
{
    while starts_part(reader) {
        declare_part(reader, levels)?;
    }
    Ok(())
}

/// declare (metaname metanum)* attr* type
#[tactic(auto, unfolding(crate::specs::Items::declare_head))]
fn declare_head(reader: &mut Reader, levels: u32) -> Result<usize, Failure>
    ensures { Reads (λ n. n) result reader.old reader.new levels declare_head }
{
    reader.take(Kind::Declare)?;
    attachments(reader, levels)?;
    reader.attributes(Context::Declare, levels)?;
    reader.ty(Context::Declare, levels)
}

/// ( params ) ftail*
#[tactic(auto, unfolding(crate::specs::Items::declare_parameters))]
fn declare_parameters(reader: &mut Reader, levels: u32) -> Result<Vec<SpelledParameter>, Failure>
    ensures { Reads (λ v. v.items) result reader.old reader.new levels declare_parameters }
{
    let parameters = reader.parameters(Context::Declare, levels)?;
    declare_tail(reader, levels)?;
    Ok(parameters)
}

/// declare (metaname metanum)* attr* type global ( params ) ftail*
#[tactic(auto, unfolding(crate::specs::Items::declare_item))]
pub(crate) fn declare_item(reader: &mut Reader, levels: u32) -> Result<(), Failure>
    ensures { Reads (λ x. x) result reader.old reader.new levels declare_item }
{
    let result_type = declare_head(reader, levels)?;
    let name = reader.take_among(&[Kind::Global, Kind::UsedGlobal, Kind::DebugGlobal])?;
    let parameters = declare_parameters(reader, levels)?;
    reader.add_declare(name.token, result_type, parameters.as_slice())
}
