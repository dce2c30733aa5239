ghost use Rattle.std.specs.Prelude.{◌≡◌};
ghost use Rattle.ir_grammar.specs.Grammar.{Reads};
ghost use Rattle.ir_read_items.specs.Items.{equals_text, source_filename, layout_text, layout, triple, target_line, target, attribute_group, type_body, type_item};

use ir_grammar::{Context, Failure, Kind, Reader, SpelledItem, SpelledType};

/// = string
#[tactic(auto, unfolding(crate::specs::Items::equals_text))]
fn equals_text(reader: &mut Reader, levels: u32) -> Result<(), Failure>
    ensures { Reads (λ x. x) result reader.old reader.new levels equals_text }
{
    reader.take(Kind::Equals)?;
    reader.text()?;
    Ok(())
}

/// source_filename = string
#[tactic(auto, unfolding(crate::specs::Items::source_filename))]
pub(crate) fn source_filename(reader: &mut Reader, levels: u32) -> Result<(), Failure>
    ensures { Reads (λ x. x) result reader.old reader.new levels source_filename }
{
    reader.take(Kind::SourceFilename)?;
    equals_text(reader, levels)?;
    reader.add_item(SpelledItem::Skipped)
}

/// The string of a layout that this program takes.
#[tactic(auto, unfolding(crate::specs::Items::layout_text))]
fn layout_text(reader: &mut Reader, levels: u32) -> Result<(), Failure>
    ensures { Reads (λ x. x) result reader.old reader.new levels layout_text }
{
    if reader.next_is(Kind::Text) {
        reader.take(Kind::Text)?;
        return Ok(());
    }
    Err(reader.refuse(&[Kind::OtherLayout]))
}

/// datalayout = string
#[tactic(auto, unfolding(crate::specs::Items::layout))]
fn layout(reader: &mut Reader, levels: u32) -> Result<(), Failure>
    ensures { Reads (λ x. x) result reader.old reader.new levels layout }
{
    reader.take(Kind::DataLayout)?;
    reader.take(Kind::Equals)?;
    layout_text(reader, levels)?;
    Ok(())
}

/// triple = string
#[tactic(auto, unfolding(crate::specs::Items::triple))]
fn triple(reader: &mut Reader, levels: u32) -> Result<(), Failure>
    ensures { Reads (λ x. x) result reader.old reader.new levels triple }
{
    reader.take(Kind::Triple)?;
    equals_text(reader, levels)?;
    Ok(())
}

/// (datalayout | triple) = string
#[tactic(auto, unfolding(crate::specs::Items::target_line, crate::specs::Items::layout, crate::specs::Items::triple))]
fn target_line(reader: &mut Reader, levels: u32) -> Result<(), Failure>
    ensures { Reads (λ x. x) result reader.old reader.new levels target_line }
{
    if reader.next_is(Kind::DataLayout) {
        return layout(reader, levels);
    }
    triple(reader, levels)
}

/// target (datalayout | triple) = string
#[tactic(auto, unfolding(crate::specs::Items::target))]
pub(crate) fn target(reader: &mut Reader, levels: u32) -> Result<(), Failure>
    ensures { Reads (λ x. x) result reader.old reader.new levels target }
{
    reader.take(Kind::Target)?;
    target_line(reader, levels)?;
    reader.add_item(SpelledItem::Skipped)
}

/// attributes attrnum = { any }
#[tactic(auto, unfolding(crate::specs::Items::attribute_group))]
pub(crate) fn attribute_group(reader: &mut Reader, levels: u32) -> Result<(), Failure>
    ensures { Reads (λ x. x) result reader.old reader.new levels attribute_group }
{
    reader.take(Kind::AttributesWord)?;
    reader.take(Kind::AttrNumber)?;
    reader.take(Kind::Equals)?;
    reader.in_braces(levels)?;
    reader.add_item(SpelledItem::Skipped)
}

/// type | opaque
#[tactic(auto, unfolding(crate::specs::Items::type_body))]
fn type_body(reader: &mut Reader, levels: u32) -> Result<usize, Failure>
    ensures { Reads (λ n. n) result reader.old reader.new levels type_body }
{
    if reader.next_is(Kind::OpaqueWord) {
        reader.take(Kind::OpaqueWord)?;
        return reader.add_type(SpelledType::Opaque);
    }
    reader.ty(Context::Plain, levels)
}

/// local = type (type | opaque)
#[tactic(auto, unfolding(crate::specs::Items::type_item))]
pub(crate) fn type_item(reader: &mut Reader, levels: u32) -> Result<(), Failure>
    ensures { Reads (λ x. x) result reader.old reader.new levels type_item }
{
    let name = reader.take_among(&[Kind::Local, Kind::LocalDefinition])?;
    reader.take(Kind::Equals)?;
    reader.take(Kind::TypeWord)?;
    let ty = type_body(reader, levels)?;
    reader.add_item(SpelledItem::Type {
        name: name.token,
        ty,
    })
}
