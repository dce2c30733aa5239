ghost use Rattle.std.specs.Prelude.{◌≡◌, ◌<◌, ◌^◌, ◌+◌, length, map, IfOk};
ghost use Rattle.ir_names.specs.Keys.{global_key, meant};
ghost use Rattle.ir_names.specs.First.{first_beside};
ghost use Rattle.ir_names.specs.Faults.{meaning_faults, constant_faults, constants_faults};
ghost use Rattle.ir_names.specs.Meanings.{numbered, number_at, variable};

use crate::fault::{NameFault, beside_fault_if};
use crate::index::Index;
use crate::keys::{global_key, meant, text_of};
use hw_base::OutOfMemory;
use ir_core::{Fault, Token};
use ir_grammar::{SpelledConstant, SpelledItem};
use ir_text::is_constructor_list;
use std::alloc::Global;

/// The first fault, beside that at a global's name that means this item, where functions may or may not be named.
fn beside_meaning(
    token: &Token,
    may: bool,
    item: Option<SpelledItem>,
    first: Option<NameFault>,
) -> Option<NameFault>
    ensures { result ≡ first_beside first (meaning_faults token.now may item) }
{
    match item {
        None => beside_fault_if(first, true, Fault::Unknown, *token),
        Some(SpelledItem::Declare { .. }) => {
            beside_fault_if(first, !may, Fault::Unsupported, *token)
        }
        Some(SpelledItem::Define { .. }) => {
            beside_fault_if(first, !may, Fault::Unsupported, *token)
        }
        Some(_) => first,
    }
}

/// The first fault, beside those at a constant, which may or may not name a function.
fn beside_constant(
    alloc: Global,
    source: &[u8],
    index: &Index,
    items: &[SpelledItem],
    may: bool,
    constant: &SpelledConstant,
    first: Option<NameFault>,
) -> Result<Option<NameFault>, OutOfMemory>
    ensures { IfOk result (λ f. f ≡ first_beside first (constant_faults source.now index.now items.now may constant.now)) }
{
    match constant {
        SpelledConstant::Local(token) => {
            Ok(beside_fault_if(first, true, Fault::Unknown, *token))
        }
        SpelledConstant::Global(token) => {
            let key = global_key(alloc, source, token)?;
            let constructors = is_constructor_list(text_of(source, token));
            let refused = beside_fault_if(first, constructors, Fault::Unsupported, *token);
            let item = meant(index, items, key.as_slice());
            Ok(beside_meaning(token, may, item, refused))
        }
        _ => Ok(first),
    }
}

/// The first fault, beside those at constants, by the marks of those that may name a function.
pub(crate) fn beside_constants(
    alloc: Global,
    source: &[u8],
    index: &Index,
    items: &[SpelledItem],
    marks: &[bool],
    constants: &[SpelledConstant],
    first: Option<NameFault>,
) -> Result<Option<NameFault>, OutOfMemory>
    ensures { IfOk result (λ f. f ≡ first_beside first (constants_faults source.now index.now items.now marks.now 0 constants.now)) }
{
    let _count = constants.len();
    let mut found = first;
    let mut i: usize = 0;
    let mut rest = constants;
    while let [constant, after @ ..] = rest {
        let may = marks.get(i).copied().unwrap_or(false);
        found = beside_constant(alloc, source, index, items, may, constant, found)?;
        i += 1;
        rest = after;
    }
    Ok(found)
}

/// The numbers of global variables in order of the text, one an item; other items have none.
pub(crate) fn numbered(
    alloc: Global,
    items: &[SpelledItem],
) -> Result<Vec<Option<u32>>, OutOfMemory>
    requires { length items.now < 2 ^ 32 }
    ensures { IfOk result (λ numbers. numbers.items ≡ numbered 0 items.now) }
{
    let mut numbers = Vec::new(alloc);
    let mut n: u32 = 0;
    let mut rest = items;
    while let [item, after @ ..] = rest {
        match item {
            SpelledItem::Global { .. } => {
                numbers.push(Some(n))?;
                n += 1;
            }
            _ => numbers.push(None)?,
        }
        rest = after;
    }
    Ok(numbers)
}

/// The number at a place, or none.
fn number_at(numbers: &[Option<u32>], place: Option<usize>) -> Option<u32>
    ensures { result ≡ number_at numbers.now place }
{
    match place {
        None => None,
        Some(i) => numbers.get(i).copied().unwrap_or(None),
    }
}

/// The number of the variable that a constant names, or none.
fn variable(
    alloc: Global,
    source: &[u8],
    index: &Index,
    numbers: &[Option<u32>],
    constant: &SpelledConstant,
) -> Result<Option<u32>, OutOfMemory>
    ensures { IfOk result (λ n. n ≡ variable source.now index.now numbers.now constant.now) }
{
    match constant {
        SpelledConstant::Global(token) => {
            let key = global_key(alloc, source, token)?;
            Ok(number_at(numbers, index.first_with(key.as_slice())))
        }
        _ => Ok(None),
    }
}

/// The numbers of the variables that constants name, one a constant.
pub(crate) fn variables_of(
    alloc: Global,
    source: &[u8],
    index: &Index,
    numbers: &[Option<u32>],
    constants: &[SpelledConstant],
) -> Result<Vec<Option<u32>>, OutOfMemory>
    ensures { IfOk result (λ found. found.items ≡ map (variable source.now index.now numbers.now) constants.now) }
{
    let mut found = Vec::new(alloc);
    let mut rest = constants;
    while let [constant, after @ ..] = rest {
        found.push(variable(alloc, source, index, numbers, constant)?)?;
        rest = after;
    }
    Ok(found)
}
