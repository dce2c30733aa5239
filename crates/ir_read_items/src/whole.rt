ghost use Rattle.std.specs.Prelude.{◌≡◌, ◌≤◌, ◌*◌, length, All, IfOk};
ghost use Rattle.ir_grammar.specs.Reading.{starts, first};
ghost use Rattle.ir_grammar.specs.Grammar.{Reads};
ghost use Rattle.ir_grammar.specs.Spelled.{store_of};
ghost use Rattle.ir_grammar.specs.SoundStore.{IsInRange, IsSoundStore, size_of};
ghost use Rattle.ir_read_items.specs.Items.{item, free_items, next_items, maybe_next_items, declare_group, declare_groups, module_rule};
ghost use Rattle.ir_read_items.specs.ItemReading.{ReadsItems};

use crate::declares::declare_item;
use crate::defines::define_item;
use crate::globals::{global_item, used_item};
use crate::items::{attribute_group, source_filename, target, type_item};
use crate::nodes::{list_item, node_item};
use hw_base::MOST_NESTING;
use ir_grammar::{Failure, Kind, Reader, Spellings, Terminal, refused_words};
use std::alloc::Global;

/// The kinds that an item begins with wherever it stands, but for a declare.
const STARTS: [Kind; 9] = [
    Kind::SourceFilename,
    Kind::Target,
    Kind::Local,
    Kind::LocalDefinition,
    Kind::Global,
    Kind::DebugGlobal,
    Kind::UsedGlobal,
    Kind::AttributesWord,
    Kind::Define,
];

/// Words that are Unsupported where an item may begin, beside those that are Unsupported everywhere.
const MORE_REFUSED: [Kind; 3] = [Kind::External, Kind::MetadataWord, Kind::DollarWord];

/// An item that is no declare, where a metadata list has a name of these kinds.
#[tactic(auto, unfolding(crate::specs::Items::item, crate::specs::Items::source_filename, crate::specs::Items::target, crate::specs::Items::type_item, crate::specs::Items::global_item, crate::specs::Items::used_item, crate::specs::Items::attribute_group, crate::specs::Items::define_item, crate::specs::Items::define_head, crate::specs::Items::node_item, crate::specs::Items::list_item))]
fn item(reader: &mut Reader, names: &[Kind], levels: u32) -> Result<(), Failure>
    ensures { Reads (λ x. x) result reader.old reader.new levels (item names.now) }
{
    if reader.next_is(Kind::SourceFilename) {
        return source_filename(reader, levels);
    }
    if reader.next_is(Kind::Target) {
        return target(reader, levels);
    }
    if reader.next_among(&[Kind::Local, Kind::LocalDefinition]) {
        return type_item(reader, levels);
    }
    if reader.next_among(&[Kind::Global, Kind::DebugGlobal]) {
        return global_item(reader, levels);
    }
    if reader.next_is(Kind::UsedGlobal) {
        return used_item(reader, levels);
    }
    if reader.next_is(Kind::AttributesWord) {
        return attribute_group(reader, levels);
    }
    if reader.next_is(Kind::Define) {
        return define_item(reader, levels);
    }
    if reader.next_is(Kind::MetaNumber) {
        return node_item(reader, levels);
    }
    if reader.next_among(names) {
        return list_item(reader, names, levels);
    }
    Err(reader.refuse_either(&MORE_REFUSED, refused_words()))
}

/// Whether an item that is no declare is read at the next token, if only to refuse it.
#[tactic(auto, using(crate::proofs::ItemLists::item_kinds))]
fn starts_item(reader: &Reader, names: &[Kind]) -> bool
    ensures { result ≡ starts (first (item names.now)) reader.now.rest.now }
{
    reader.next_among(&STARTS)
        || reader.next_is(Kind::MetaNumber)
        || reader.next_among(names)
        || reader.next_either(&MORE_REFUSED, refused_words())
}

/// Items that are no declares, behind another such item or at the head of the text.
#[tactic(auto, using(crate::proofs::ItemLists::items_more, crate::proofs::ItemLists::items_done, crate::proofs::ItemLists::items_failed, crate::proofs::ItemLists::items_take))]
fn free_items(reader: &mut Reader, levels: u32) -> Result<(), Failure>
    ensures { Reads (λ x. x) result reader.old reader.new levels free_items }
{
    while starts_item(reader, &[Kind::MetaName, Kind::MetaDefinition]) {
        item(reader, &[Kind::MetaName, Kind::MetaDefinition], levels)?;
    }
    Ok(())
}

/// The item behind a declare, and those that follow it.
#[tactic(auto, unfolding(crate::specs::Items::next_items))]
fn next_items(reader: &mut Reader, levels: u32) -> Result<(), Failure>
    ensures { Reads (λ x. x) result reader.old reader.new levels next_items }
{
    item(reader, &[Kind::MetaDefinition], levels)?;
    free_items(reader, levels)?;
    Ok(())
}

/// Whether an item is read behind a declare at the next token, if only to refuse it.
#[tactic(auto, using(crate::proofs::ItemLists::next_starts))]
fn starts_next(reader: &Reader) -> bool
    ensures { result ≡ starts (first next_items) reader.now.rest.now }
{
    starts_item(reader, &[Kind::MetaDefinition])
}

/// The items behind a declare, up to the next declare.
#[tactic(auto, unfolding(crate::specs::Items::maybe_next_items))]
fn maybe_next_items(reader: &mut Reader, levels: u32) -> Result<(), Failure>
    ensures { Reads (λ x. x) result reader.old reader.new levels maybe_next_items }
{
    if starts_next(reader) {
        next_items(reader, levels)?;
    }
    Ok(())
}

/// A declare, and the items up to the next declare.
#[tactic(auto, unfolding(crate::specs::Items::declare_group))]
fn declare_group(reader: &mut Reader, levels: u32) -> Result<(), Failure>
    ensures { Reads (λ x. x) result reader.old reader.new levels declare_group }
{
    declare_item(reader, levels)?;
    maybe_next_items(reader, levels)?;
    Ok(())
}

/// The declares, each with the items behind it.
#[tactic(auto, using(crate::proofs::ItemLists::groups_more, crate::proofs::ItemLists::groups_done, crate::proofs::ItemLists::groups_failed, crate::proofs::ItemLists::groups_take))]
fn declare_groups(reader: &mut Reader, levels: u32) -> Result<(), Failure>
    ensures { Reads (λ x. x) result reader.old reader.new levels declare_groups }
{
    while reader.next_is(Kind::Declare) {
        declare_group(reader, levels)?;
    }
    Ok(())
}

/// item*, to the end of the text
#[tactic(auto, unfolding(crate::specs::Items::module_rule))]
fn whole_module(reader: &mut Reader, levels: u32) -> Result<(), Failure>
    ensures { Reads (λ x. x) result reader.old reader.new levels module_rule }
{
    free_items(reader, levels)?;
    declare_groups(reader, levels)?;
    reader.take(Kind::End)?;
    Ok(())
}

/// What a text spells, or its flaw.
fn spelled(alloc: Global, tokens: &[Terminal]) -> Result<Spellings, Failure>
    ensures { ReadsItems tokens.now result }
{
    let mut reader = Reader {
        alloc,
        rest: tokens,
        found: Spellings::new(alloc),
    };
    whole_module(&mut reader, MOST_NESTING)?;
    Ok(reader.found)
}

/// What a text spells, from its tokens with the end of the text after them: its items in order of the text, with the
/// types, constants, parameters and bodies that they name by number. The error is the flaw at the first token with which nothing
/// of the grammar goes on, the bracket that opens the 65th level among them, or want of memory.
pub fn read_items(alloc: Global, tokens: &[Terminal]) -> Result<Spellings, Failure>
    requires { All IsInRange tokens.now }
    ensures spelled { ReadsItems tokens.now result }
    ensures sound { IfOk result (λ found. IsSoundStore (store_of found)) }
    ensures small { IfOk result (λ found. size_of (store_of found) ≤ 8 * length tokens.now) }
{
    let found = spelled(alloc, tokens)?;
    Ok(found)
}
