ghost use Rattle.std.specs.Prelude.{◌≡◌, [], ◌∷◌};
ghost use Rattle.ir_grammar.specs.Grammar.{Reads};
ghost use Rattle.ir_read_items.specs.Items.{global_head, section_rest, section, attachment, global_part, comma_part, global_tail, global_value, global_item, packed_any, used_value, used_item};

use ir_grammar::{Context, Failure, Kind, Reader, SpelledItem, Terminal};

/// = attr* (global | constant) type
#[tactic(auto, unfolding(crate::specs::Items::global_head))]
fn global_head(reader: &mut Reader, levels: u32) -> Result<(Terminal, usize), Failure>
    ensures { Reads (λ v. v) result reader.old reader.new levels global_head }
{
    reader.take(Kind::Equals)?;
    reader.attributes(Context::Global, levels)?;
    let word = reader.take_among(&[Kind::GlobalWord, Kind::ConstantWord])?;
    let ty = reader.ty(Context::Plain, levels)?;
    Ok((word, ty))
}

/// ( any ) | string
#[tactic(auto, unfolding(crate::specs::Items::section_rest, ir_grammar::specs::Skipped::in_parens))]
fn section_rest(reader: &mut Reader, levels: u32) -> Result<(), Failure>
    ensures { Reads (λ x. x) result reader.old reader.new levels section_rest }
{
    if reader.next_is(Kind::OpenParen) {
        return reader.in_parens(levels);
    }
    reader.text()?;
    Ok(())
}

/// section string | section | section ( any ): the last two are attributes
#[tactic(auto, unfolding(crate::specs::Items::section, crate::specs::Items::section_rest, ir_grammar::specs::Skipped::in_parens))]
fn section(reader: &mut Reader, levels: u32) -> Result<(), Failure>
    ensures { Reads (λ x. x) result reader.old reader.new levels section }
{
    reader.take(Kind::Section)?;
    if reader.next_among(&[Kind::OpenParen, Kind::Text, Kind::OtherLayout]) {
        section_rest(reader, levels)?;
    }
    Ok(())
}

/// metaname metanum
#[tactic(auto, unfolding(crate::specs::Items::attachment))]
pub(crate) fn attachment(reader: &mut Reader, levels: u32) -> Result<(), Failure>
    ensures { Reads (λ x. x) result reader.old reader.new levels attachment }
{
    reader.take_among(&[Kind::MetaName, Kind::MetaDefinition])?;
    reader.take(Kind::MetaNumber)?;
    Ok(())
}

/// section string | metaname metanum | attr
#[tactic(auto, unfolding(crate::specs::Items::global_part, crate::specs::Items::section, crate::specs::Items::attachment))]
fn global_part(reader: &mut Reader, levels: u32) -> Result<(), Failure>
    ensures { Reads (λ x. x) result reader.old reader.new levels global_part }
{
    if reader.next_is(Kind::Section) {
        return section(reader, levels);
    }
    if reader.next_among(&[Kind::MetaName, Kind::MetaDefinition]) {
        return attachment(reader, levels);
    }
    reader.attribute(Context::GlobalTail, levels)
}

/// , section string | , metaname metanum | , attr
#[tactic(auto, unfolding(crate::specs::Items::comma_part))]
fn comma_part(reader: &mut Reader, levels: u32) -> Result<(), Failure>
    ensures { Reads (λ x. x) result reader.old reader.new levels comma_part }
{
    reader.comma()?;
    global_part(reader, levels)
}

/// gtail*
#[tactic(auto, using(crate::proofs::ItemLists::tail_more, crate::proofs::ItemLists::tail_done, crate::proofs::ItemLists::tail_failed, crate::proofs::ItemLists::tail_takes))]
fn global_tail(reader: &mut Reader, levels: u32) -> Result<(), Failure>
    ensures { Reads (λ x. x) result reader.old reader.new levels global_tail }
{
    while reader.comma_is_next() {
        comma_part(reader, levels)?;
    }
    Ok(())
}

/// const gtail*
#[tactic(auto, unfolding(crate::specs::Items::global_value))]
fn global_value(reader: &mut Reader, levels: u32) -> Result<usize, Failure>
    ensures { Reads (λ n. n) result reader.old reader.new levels global_value }
{
    let value = reader.constant(levels)?;
    global_tail(reader, levels)?;
    Ok(value)
}

/// global = attr* (global | constant) type const gtail*
#[tactic(auto, unfolding(crate::specs::Items::global_item))]
pub(crate) fn global_item(reader: &mut Reader, levels: u32) -> Result<(), Failure>
    ensures { Reads (λ x. x) result reader.old reader.new levels global_item }
{
    let name = reader.take_among(&[Kind::Global, Kind::DebugGlobal])?;
    let (word, ty) = global_head(reader, levels)?;
    let value = global_value(reader, levels)?;
    reader.add_item(SpelledItem::Global {
        name: name.token,
        constant: word.kind.is(Kind::ConstantWord),
        ty,
        value,
    })
}

/// < { any } >
#[tactic(auto, unfolding(crate::specs::Items::packed_any))]
fn packed_any(reader: &mut Reader, levels: u32) -> Result<(), Failure>
    ensures { Reads (λ x. x) result reader.old reader.new levels packed_any }
{
    reader.take(Kind::Less)?;
    reader.in_braces(levels)?;
    reader.take(Kind::Greater)?;
    Ok(())
}

/// [ any ] | { any } | < { any } >
#[tactic(auto, unfolding(crate::specs::Items::used_value, ir_grammar::specs::Skipped::in_squares, ir_grammar::specs::Skipped::in_braces, crate::specs::Items::packed_any))]
fn used_value(reader: &mut Reader, levels: u32) -> Result<(), Failure>
    ensures { Reads (λ x. x) result reader.old reader.new levels used_value }
{
    if reader.next_is(Kind::OpenSquare) {
        return reader.in_squares(levels);
    }
    if reader.next_is(Kind::OpenBrace) {
        return reader.in_braces(levels);
    }
    packed_any(reader, levels)
}

/// @llvm.used or @llvm.compiler.used, with any elements
#[tactic(auto, unfolding(crate::specs::Items::used_item))]
pub(crate) fn used_item(reader: &mut Reader, levels: u32) -> Result<(), Failure>
    ensures { Reads (λ x. x) result reader.old reader.new levels used_item }
{
    reader.take(Kind::UsedGlobal)?;
    global_head(reader, levels)?;
    used_value(reader, levels)?;
    global_tail(reader, levels)?;
    reader.add_item(SpelledItem::Used)
}
