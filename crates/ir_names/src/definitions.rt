ghost use Rattle.std.specs.Prelude.{◌≡◌, IfOk};
ghost use Rattle.ir_names.specs.First.{first_beside};
ghost use Rattle.ir_names.specs.Faults.{item_name, is_constructors, definition_faults, definitions_faults};

use crate::fault::{NameFault, beside_fault_if};
use crate::index::Index;
use crate::keys::{item_key, text_of};
use hw_base::OutOfMemory;
use ir_core::{Fault, Token};
use ir_grammar::SpelledItem;
use ir_text::is_constructor_list;
use std::alloc::Global;

/// The token of the name that an item defines.
fn item_name(item: &SpelledItem) -> Option<Token>
    ensures { result ≡ item_name item.now }
{
    match item {
        SpelledItem::Skipped => None,
        SpelledItem::Type { name, .. } => Some(*name),
        SpelledItem::Global { name, .. } => Some(*name),
        SpelledItem::Used => None,
        SpelledItem::Declare { name, .. } => Some(*name),
        SpelledItem::Define { name, .. } => Some(*name),
        SpelledItem::Node { number } => Some(*number),
        SpelledItem::NodeList { name } => Some(*name),
    }
}

/// Whether the item is a global variable or a function by the name of the list of constructors.
fn is_constructors(source: &[u8], item: &SpelledItem) -> bool
    ensures { result ≡ is_constructors source.now item.now }
{
    match item {
        SpelledItem::Global { name, .. } => is_constructor_list(text_of(source, name)),
        SpelledItem::Declare { name, .. } => is_constructor_list(text_of(source, name)),
        SpelledItem::Define { name, .. } => is_constructor_list(text_of(source, name)),
        _ => false,
    }
}

/// The first fault, beside those at the own name of the item with number `i`.
fn beside_definition(
    alloc: Global,
    source: &[u8],
    index: &Index,
    i: usize,
    item: &SpelledItem,
    first: Option<NameFault>,
) -> Result<Option<NameFault>, OutOfMemory>
    ensures { IfOk result (λ f. f ≡ first_beside first (definition_faults source.now index.now i item.now (item_name item.now))) }
{
    match item_name(item) {
        None => Ok(first),
        Some(name) => {
            let key = item_key(alloc, source, item)?;
            let constructors = is_constructors(source, item);
            let repeated = index.is_repeated(i, key.as_slice());
            let refused = beside_fault_if(first, constructors, Fault::Unsupported, name);
            Ok(beside_fault_if(refused, repeated, Fault::Twice, name))
        }
    }
}

/// The first fault, beside those at the own names of items.
pub(crate) fn beside_definitions(
    alloc: Global,
    source: &[u8],
    index: &Index,
    items: &[SpelledItem],
    first: Option<NameFault>,
) -> Result<Option<NameFault>, OutOfMemory>
    ensures { IfOk result (λ f. f ≡ first_beside first (definitions_faults source.now index.now 0 items.now)) }
{
    let _count = items.len();
    let mut found = first;
    let mut i: usize = 0;
    let mut rest = items;
    while let [item, after @ ..] = rest {
        found = beside_definition(alloc, source, index, i, item, found)?;
        i += 1;
        rest = after;
    }
    Ok(found)
}
