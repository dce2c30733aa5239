ghost use Rattle.std.specs.Prelude.{◌≡◌, IfOk};
ghost use Rattle.std.specs.List.{flat_map};
ghost use Rattle.ir_names.specs.Keys.{type_key, meant};
ghost use Rattle.ir_names.specs.First.{first_beside};
ghost use Rattle.ir_names.specs.Faults.{type_faults};
ghost use Rattle.ir_names.specs.Meanings.{type_or, lead, leads_from};

use crate::fault::{NameFault, beside_fault_if};
use crate::index::Index;
use crate::keys::{meant, type_key};
use hw_base::OutOfMemory;
use ir_core::{Fault, Token};
use ir_grammar::{SpelledItem, SpelledType};
use std::alloc::Global;

/// The item that is meant by a type's name.
fn type_meant(
    alloc: Global,
    source: &[u8],
    index: &Index,
    items: &[SpelledItem],
    token: &Token,
) -> Result<Option<SpelledItem>, OutOfMemory>
    ensures { IfOk result (λ item. item ≡ meant index.now items.now (type_key source.now token.now)) }
{
    let key = type_key(alloc, source, token)?;
    Ok(meant(index, items, key.as_slice()))
}

/// The first fault, beside that at a type.
fn beside_type(
    alloc: Global,
    source: &[u8],
    index: &Index,
    items: &[SpelledItem],
    ty: &SpelledType,
    first: Option<NameFault>,
) -> Result<Option<NameFault>, OutOfMemory>
    ensures { IfOk result (λ f. f ≡ first_beside first (type_faults source.now index.now items.now ty.now)) }
{
    match ty {
        SpelledType::Named(token) => {
            let item = type_meant(alloc, source, index, items, token)?;
            Ok(beside_fault_if(first, item.is_none(), Fault::Unknown, *token))
        }
        _ => Ok(first),
    }
}

/// The first fault, beside those at types.
pub(crate) fn beside_types(
    alloc: Global,
    source: &[u8],
    index: &Index,
    items: &[SpelledItem],
    types: &[SpelledType],
    first: Option<NameFault>,
) -> Result<Option<NameFault>, OutOfMemory>
    ensures { IfOk result (λ f. f ≡ first_beside first (flat_map (type_faults source.now index.now items.now) types.now)) }
{
    let mut found = first;
    let mut rest = types;
    while let [ty, after @ ..] = rest {
        found = beside_type(alloc, source, index, items, ty, found)?;
        rest = after;
    }
    Ok(found)
}

/// The type that an item defines, or this one where it defines none.
fn type_or(j: usize, item: Option<SpelledItem>) -> usize
    ensures { result ≡ type_or j item }
{
    match item {
        Some(SpelledItem::Type { ty, .. }) => ty,
        _ => j,
    }
}

/// The number of the type that stands for type `j`.
fn lead(
    alloc: Global,
    source: &[u8],
    index: &Index,
    items: &[SpelledItem],
    j: usize,
    ty: &SpelledType,
) -> Result<usize, OutOfMemory>
    ensures { IfOk result (λ n. n ≡ lead source.now index.now items.now j ty.now) }
{
    match ty {
        SpelledType::Named(token) => {
            let item = type_meant(alloc, source, index, items, token)?;
            Ok(type_or(j, item))
        }
        _ => Ok(j),
    }
}

/// The numbers of the types that stand for types, one a type.
pub(crate) fn leads_of(
    alloc: Global,
    source: &[u8],
    index: &Index,
    items: &[SpelledItem],
    types: &[SpelledType],
) -> Result<Vec<usize>, OutOfMemory>
    ensures { IfOk result (λ leads. leads.items ≡ leads_from source.now index.now items.now 0 types.now) }
{
    let _count = types.len();
    let mut leads = Vec::new(alloc);
    let mut j: usize = 0;
    let mut rest = types;
    while let [ty, after @ ..] = rest {
        leads.push(lead(alloc, source, index, items, j, ty)?)?;
        j += 1;
        rest = after;
    }
    Ok(leads)
}
