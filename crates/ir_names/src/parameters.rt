ghost use Rattle.std.specs.Prelude.{◌≡◌, ◌<◌, ◌+◌, ◌^◌, true, IfOk, take, drop};
ghost use Rattle.std.specs.List.{flat_map};
ghost use Rattle.ir_names.specs.Keys.{behind_sigil};
ghost use Rattle.ir_names.specs.First.{first_beside};
ghost use Rattle.ir_names.specs.Faults.{parameter_key, parameter_keys, count_behind, count_behind_name, is_taken, parameter_faults, parameters_faults, parameter_list_faults, declare_faults};
ghost use Rattle.ir_names.specs.Numbers.{counter_value};
ghost use Rattle.ir_names.specs.Places.{keys_in};

use crate::counter::{Counter, is_number};
use crate::fault::{NameFault, beside_fault_if};
use crate::index::Index;
use crate::keys::behind_sigil;
use hw_base::OutOfMemory;
use ir_core::{Fault, Token};
use ir_grammar::{SpelledItem, SpelledParameter};
use ir_text::name_key;
use std::alloc::Global;

/// The key of a parameter's name, empty where it has none.
fn parameter_key(alloc: Global, source: &[u8], name: Option<Token>) -> Result<Vec<u8>, OutOfMemory>
    ensures { IfOk result (λ key. key.items ≡ parameter_key source.now name) }
{
    match name {
        None => Ok(Vec::new(alloc)),
        Some(token) => name_key(alloc, behind_sigil(source, &token)),
    }
}

/// The keys of parameters' names.
fn parameter_keys(
    alloc: Global,
    source: &[u8],
    parameters: &[SpelledParameter],
) -> Result<Vec<Vec<u8>>, OutOfMemory>
    ensures { IfOk result (λ keys. keys_in keys.items ≡ parameter_keys source.now parameters.now) }
{
    let mut keys = Vec::new(alloc);
    let mut rest = parameters;
    while let [parameter, after @ ..] = rest {
        keys.push(parameter_key(alloc, source, parameter.name)?)?;
        rest = after;
    }
    Ok(keys)
}

/// The counter behind a name.
fn count_behind_name<'a>(counter: Counter<'a>, text: &'a [u8]) -> Counter<'a>
    ensures value { counter_value result ≡ count_behind_name (counter_value counter.entry) text.now }
    ensures more { result.more < counter.entry.more + 2 }
{
    if is_number(text) {
        Counter::behind(text)
    } else {
        counter
    }
}

/// The counter behind a parameter with this name or without one.
fn count_behind<'a>(source: &'a [u8], counter: Counter<'a>, name: Option<Token>) -> Counter<'a>
    requires { counter.more + 1 < 2 ^ 64 }
    ensures value { counter_value result ≡ count_behind source.now (counter_value counter.entry) name }
    ensures more { result.more < counter.entry.more + 2 }
{
    match name {
        None => counter.next(),
        Some(token) => count_behind_name(counter, behind_sigil(source, &token)),
    }
}

/// Whether the name of the parameter with number `i` is taken.
fn is_taken(
    alloc: Global,
    index: &Index,
    i: usize,
    counter: &Counter,
    text: &[u8],
) -> Result<bool, OutOfMemory>
    ensures { IfOk result (λ taken. taken ≡ is_taken index.now i (counter_value counter.now) text.now) }
{
    if is_number(text) {
        Ok(counter.is_above(text))
    } else {
        let key = name_key(alloc, text)?;
        Ok(index.is_repeated(i, key.as_slice()))
    }
}

/// The first fault, beside that at the name of the parameter with number `i`.
fn beside_parameter(
    alloc: Global,
    source: &[u8],
    index: &Index,
    i: usize,
    counter: &Counter,
    name: Option<Token>,
    first: Option<NameFault>,
) -> Result<Option<NameFault>, OutOfMemory>
    ensures { IfOk result (λ f. f ≡ first_beside first (parameter_faults source.now index.now i (counter_value counter.now) name)) }
{
    match name {
        None => Ok(first),
        Some(token) => {
            let taken = is_taken(alloc, index, i, counter, behind_sigil(source, &token))?;
            Ok(beside_fault_if(first, taken, Fault::Twice, token))
        }
    }
}

/// The first fault, beside those at parameters' names, by their index.
fn beside_parameters(
    alloc: Global,
    source: &[u8],
    index: &Index,
    parameters: &[SpelledParameter],
    first: Option<NameFault>,
) -> Result<Option<NameFault>, OutOfMemory>
    ensures { IfOk result (λ f. f ≡ first_beside first (parameters_faults source.now index.now 0 0 parameters.now)) }
{
    let _count = parameters.len();
    let mut found = first;
    let mut i: usize = 0;
    let mut counter = Counter::new();
    let mut rest = parameters;
    while let [parameter, after @ ..] = rest {
        found = beside_parameter(alloc, source, index, i, &counter, parameter.name, found)?;
        counter = count_behind(source, counter, parameter.name);
        i += 1;
        rest = after;
    }
    Ok(found)
}

/// The first fault, beside those at the names of a function's parameters.
fn beside_list(
    alloc: Global,
    source: &[u8],
    parameters: &[SpelledParameter],
    first: Option<NameFault>,
) -> Result<Option<NameFault>, OutOfMemory>
    ensures { IfOk result (λ f. f ≡ first_beside first (parameter_list_faults source.now parameters.now)) }
{
    let keys = parameter_keys(alloc, source, parameters)?;
    let index = Index::new(alloc, keys.as_slice())?;
    beside_parameters(alloc, source, &index, parameters, first)
}

/// The `count` entries from `first` on, or those of them that are there.
pub(crate) fn part_of<T: Copy>(entries: &[T], first: usize, count: usize) -> &[T]
    ensures { result.now ≡ take count (drop first entries.now) }
{
    let from = first.min(entries.len());
    let behind = &entries[from..];
    &behind[..count.min(behind.len())]
}

/// The first fault, beside those at the names of an item's parameters.
fn beside_declare(
    alloc: Global,
    source: &[u8],
    parameters: &[SpelledParameter],
    item: &SpelledItem,
    first: Option<NameFault>,
) -> Result<Option<NameFault>, OutOfMemory>
    ensures { IfOk result (λ f. f ≡ first_beside first (declare_faults source.now parameters.now item.now)) }
{
    match item {
        SpelledItem::Declare {
            first: from,
            count,
            ..
        } => beside_list(alloc, source, part_of(parameters, *from, *count), first),
        _ => Ok(first),
    }
}

/// The first fault, beside those at the names of items' parameters.
pub(crate) fn beside_declares(
    alloc: Global,
    source: &[u8],
    parameters: &[SpelledParameter],
    items: &[SpelledItem],
    first: Option<NameFault>,
) -> Result<Option<NameFault>, OutOfMemory>
    ensures { IfOk result (λ f. f ≡ first_beside first (flat_map (declare_faults source.now parameters.now) items.now)) }
{
    let mut found = first;
    let mut rest = items;
    while let [item, after @ ..] = rest {
        found = beside_declare(alloc, source, parameters, item, found)?;
        rest = after;
    }
    Ok(found)
}
