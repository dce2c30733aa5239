ghost use Rattle.std.specs.Prelude.{◌≡◌};
ghost use Rattle.ir_grammar.specs.Grammar.{Reads};
ghost use Rattle.ir_read_items.specs.Items.{bang_node, named_node, node, maybe_distinct, node_item, list_item};

use ir_grammar::{Failure, Kind, Reader, SpelledItem};

/// bang { any }
#[tactic(auto, unfolding(crate::specs::Items::bang_node))]
fn bang_node(reader: &mut Reader, levels: u32) -> Result<(), Failure>
    ensures { Reads (λ x. x) result reader.old reader.new levels bang_node }
{
    reader.take(Kind::Bang)?;
    reader.in_braces(levels)?;
    Ok(())
}

/// metaname ( any )
#[tactic(auto, unfolding(crate::specs::Items::named_node))]
fn named_node(reader: &mut Reader, levels: u32) -> Result<(), Failure>
    ensures { Reads (λ x. x) result reader.old reader.new levels named_node }
{
    reader.take_among(&[Kind::MetaName, Kind::MetaDefinition])?;
    reader.in_parens(levels)?;
    Ok(())
}

/// bang { any } | metaname ( any )
#[tactic(auto, unfolding(crate::specs::Items::node, crate::specs::Items::bang_node, crate::specs::Items::named_node))]
fn node(reader: &mut Reader, levels: u32) -> Result<(), Failure>
    ensures { Reads (λ x. x) result reader.old reader.new levels node }
{
    if reader.next_is(Kind::Bang) {
        return bang_node(reader, levels);
    }
    named_node(reader, levels)
}

/// distinct?
#[tactic(auto, unfolding(crate::specs::Items::maybe_distinct))]
fn maybe_distinct(reader: &mut Reader, levels: u32) -> Result<(), Failure>
    ensures { Reads (λ x. x) result reader.old reader.new levels maybe_distinct }
{
    if reader.next_is(Kind::Distinct) {
        reader.take(Kind::Distinct)?;
    }
    Ok(())
}

/// metanum = distinct? node
#[tactic(auto, unfolding(crate::specs::Items::node_item))]
pub(crate) fn node_item(reader: &mut Reader, levels: u32) -> Result<(), Failure>
    ensures { Reads (λ x. x) result reader.old reader.new levels node_item }
{
    let number = reader.take(Kind::MetaNumber)?;
    reader.take(Kind::Equals)?;
    maybe_distinct(reader, levels)?;
    node(reader, levels)?;
    reader.add_item(SpelledItem::Node {
        number: number.token,
    })
}

/// metaname = bang { any }, with a name of these kinds
#[tactic(auto, unfolding(crate::specs::Items::list_item))]
pub(crate) fn list_item(reader: &mut Reader, names: &[Kind], levels: u32) -> Result<(), Failure>
    ensures { Reads (λ x. x) result reader.old reader.new levels (list_item names.now) }
{
    let name = reader.take_among(names)?;
    reader.take(Kind::Equals)?;
    bang_node(reader, levels)?;
    reader.add_item(SpelledItem::NodeList { name: name.token })
}
