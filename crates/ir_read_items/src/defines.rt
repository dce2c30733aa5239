ghost use Rattle.std.specs.Prelude.{◌≡◌};
ghost use Rattle.ir_grammar.specs.Reading.{starts, first};
ghost use Rattle.ir_grammar.specs.Grammar.{Reads};
ghost use Rattle.ir_read_items.specs.Items.{define_part, define_tail, define_head, define_body, define_rest, define_item};

use crate::globals::attachment;
use ir_grammar::{Context, Failure, Kind, Reader, SpelledBlock, SpelledParameter};
use ir_read_body::function_body;

/// metaname metanum | attr
#[tactic(auto, unfolding(crate::specs::Items::define_part, crate::specs::Items::attachment))]
fn define_part(reader: &mut Reader, levels: u32) -> Result<(), Failure>
    ensures { Reads (λ x. x) result reader.old reader.new levels define_part }
{
    if reader.next_among(&[Kind::MetaName, Kind::MetaDefinition]) {
        return attachment(reader, levels);
    }
    reader.attribute(Context::Plain, levels)
}

/// Whether a part after a definition's parameters is read at the next token, if only to refuse it.
#[tactic(auto, using(crate::proofs::DefineLists::part_starts))]
fn starts_part(reader: &Reader) -> bool
    ensures { result ≡ starts (first define_part) reader.now.rest.now }
{
    reader.next_among(&[Kind::MetaName, Kind::MetaDefinition])
        || reader.starts_attribute(Context::Plain)
}

/// ftail*
#[tactic(auto, using(crate::proofs::DefineLists::parts_more, crate::proofs::DefineLists::parts_done, crate::proofs::DefineLists::parts_failed, crate::proofs::DefineLists::parts_take))]
fn define_tail(reader: &mut Reader, levels: u32) -> Result<(), Failure>
    ensures { Reads (λ x. x) result reader.old reader.new levels define_tail }
{
    while starts_part(reader) {
        define_part(reader, levels)?;
    }
    Ok(())
}

/// define attr* type
#[tactic(auto, unfolding(crate::specs::Items::define_head))]
fn define_head(reader: &mut Reader, levels: u32) -> Result<usize, Failure>
    ensures { Reads (λ n. n) result reader.old reader.new levels define_head }
{
    reader.take(Kind::Define)?;
    reader.attributes(Context::Plain, levels)?;
    reader.ty(Context::Plain, levels)
}

/// ftail* { block+ }
#[tactic(auto, unfolding(crate::specs::Items::define_body))]
fn define_body(reader: &mut Reader, levels: u32) -> Result<Vec<SpelledBlock>, Failure>
    ensures { Reads (λ v. v.items) result reader.old reader.new levels define_body }
{
    define_tail(reader, levels)?;
    function_body(reader, levels)
}

/// ( params ) ftail* { block+ }
#[tactic(auto, unfolding(crate::specs::Items::define_rest))]
fn define_rest(
    reader: &mut Reader,
    levels: u32,
) -> Result<(Vec<SpelledParameter>, Vec<SpelledBlock>), Failure>
    ensures { Reads (λ v. (v.0.items, v.1.items)) result reader.old reader.new levels define_rest }
{
    let parameters = reader.parameters(Context::Plain, levels)?;
    let blocks = define_body(reader, levels)?;
    Ok((parameters, blocks))
}

/// define attr* type global ( params ) ftail* { block+ }
#[tactic(auto, unfolding(crate::specs::Items::define_item))]
pub(crate) fn define_item(reader: &mut Reader, levels: u32) -> Result<(), Failure>
    ensures { Reads (λ x. x) result reader.old reader.new levels define_item }
{
    let result_type = define_head(reader, levels)?;
    let name = reader.take_among(&[Kind::Global, Kind::UsedGlobal, Kind::DebugGlobal])?;
    let (parameters, blocks) = define_rest(reader, levels)?;
    reader.add_define(
        name.token,
        result_type,
        parameters.as_slice(),
        blocks.as_slice(),
    )
}
