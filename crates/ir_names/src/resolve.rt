ghost use Rattle.std.specs.Prelude.{◌≡◌, ◌<◌, ◌^◌, length, map, IfOk};
ghost use Rattle.ir_grammar.specs.Spelled.{store_of};
ghost use Rattle.ir_names.specs.Keys.{item_keys};
ghost use Rattle.ir_names.specs.First.{first_fault};
ghost use Rattle.ir_names.specs.Faults.{name_faults, faults_by};
ghost use Rattle.ir_names.specs.Meanings.{leads_from, leads_of, numbered, variable, variables_of};

use crate::constants::{beside_constants, numbered, variables_of};
use crate::definitions::beside_definitions;
use crate::fault::NameFault;
use crate::index::Index;
use crate::keys::item_keys;
use crate::parameters::beside_declares;
use crate::references::{References, Resolution};
use crate::starts::start_marks;
use crate::types::{beside_types, leads_of};
use hw_base::OutOfMemory;
use ir_grammar::{SpelledItem, Spellings};
use std::alloc::Global;

/// The first fault of a name, by the index of the items' keys.
fn first_fault(
    alloc: Global,
    source: &[u8],
    index: &Index,
    items: &[SpelledItem],
    found: &Spellings,
) -> Result<Option<NameFault>, OutOfMemory>
    ensures { IfOk result (λ f. f ≡ first_fault (faults_by source.now index.now items.now (store_of found.now))) }
{
    let parameters = found.parameters.as_slice();
    let own = beside_definitions(alloc, source, index, items, None)?;
    let declares = beside_declares(alloc, source, parameters, items, own)?;
    let types = beside_types(
        alloc,
        source,
        index,
        items,
        found.types.as_slice(),
        declares,
    )?;
    let marks = start_marks(alloc, source, index, items, found)?;
    beside_constants(
        alloc,
        source,
        index,
        items,
        marks.as_slice(),
        found.constants.as_slice(),
        types,
    )
}

/// What the names stand for, by the index of the items' keys.
fn references(
    alloc: Global,
    source: &[u8],
    index: &Index,
    items: &[SpelledItem],
    found: &Spellings,
) -> Result<References, OutOfMemory>
    requires { length items.now < 2 ^ 32 }
    ensures leads { IfOk result (λ r. r.leads.items ≡ leads_from source.now index.now items.now 0 (store_of found.now).types) }
    ensures variables { IfOk result (λ r. r.variables.items ≡ map (variable source.now index.now (numbered 0 items.now)) (store_of found.now).constants) }
{
    let numbers = numbered(alloc, items)?;
    let constants = found.constants.as_slice();
    Ok(References {
        leads: leads_of(alloc, source, index, items, found.types.as_slice())?,
        variables: variables_of(alloc, source, index, numbers.as_slice(), constants)?,
    })
}

/// What the names of a text stand for, and the first fault of a name but for those of registers, blocks and callees: `source` is
/// the text, `items` are its items in order, below 2^32 of them, and `found` is what was read of them. Two names are one where they stand
/// for the same bytes, or write the same number: `%01` is `%1`, and `%"a"` is `%a`. The error is want of memory. A name has a
/// fault:
///
/// - `Twice`, where an earlier item defines it, or an earlier parameter of the same declared function; a parameter's written
///   number, where it is below the counter of the parameters before it;
/// - `Unknown`, at a type's name that no item defines, at a local in a constant, and at a global in a constant that no item
///   defines;
/// - `Unsupported`, at a function in a constant, and at `llvm.global_ctors`. A function may be named in the third argument of a
///   call of `pthread_create`, which the module declares, also as the base of an address.
///
/// The first is the one whose token begins first, and at one place the one with the lower code. A name that is defined twice
/// stands for its first definition, and a type's name without a definition for itself.
pub fn resolve_names(
    alloc: Global,
    source: &[u8],
    items: &[SpelledItem],
    found: &Spellings,
) -> Result<Resolution, OutOfMemory>
    requires { length items.now < 2 ^ 32 }
    ensures fault { IfOk result (λ r. r.fault ≡ first_fault (name_faults source.now items.now (store_of found.now))) }
    ensures leads { IfOk result (λ r. r.references.leads.items ≡ leads_of source.now items.now (store_of found.now)) }
    ensures variables { IfOk result (λ r. r.references.variables.items ≡ variables_of source.now items.now (store_of found.now)) }
{
    let keys = item_keys(alloc, source, items)?;
    let index = Index::new(alloc, keys.as_slice())?;
    let fault = first_fault(alloc, source, &index, items, found)?;
    Ok(Resolution {
        references: references(alloc, source, &index, items, found)?,
        fault,
    })
}
