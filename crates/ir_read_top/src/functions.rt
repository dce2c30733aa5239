ghost use Rattle.std.specs.Prelude.{◌≡◌, ◌<◌, ◌+◌, ◌^◌, ◌++◌, map, length, IfOk, OnOk};
ghost use Rattle.ir_grammar.specs.Spelled.{store_of};
ghost use Rattle.ir_names.specs.Places.{keys_in};
ghost use Rattle.ir_names.specs.First.{first_beside};
ghost use Rattle.ir_body_names.specs.Views.{surroundings_of};
ghost use Rattle.ir_first_values.specs.Offsets.{IsReady};
ghost use Rattle.ir_first_values.specs.Tables.{tables_of};
ghost use Rattle.ir_read_items.specs.Rows.{Each};
ghost use Rattle.ir_functions.specs.Functions.{function_of};
ghost use Rattle.ir_functions.specs.Resolution.{spelled_function};
ghost use Rattle.ir_read_top.specs.Functions.{IsShort, spelled_in, functions_in, function_keys, declare_key, declare_keys, function_faults};

use hw_base::OutOfMemory;
use ir_body_names::{Names, beside_body, items_from};
use ir_core::{FunctionList, Lib, Node, NodeKind};
use ir_first_values::Initializers;
use ir_functions::{SpelledFunction, function_of};
use ir_grammar::{SpelledItem, Spellings};
use ir_names::{NameFault, global_key};
use std::alloc::Global;

/// Adds the function that an item defines, if it defines one.
fn push_function<'a>(
    functions: &mut Vec<SpelledFunction<'a>>,
    found: &'a Spellings,
    item: &SpelledItem,
) -> Result<(), OutOfMemory>
    ensures { OnOk result (map spelled_function functions.new.items ≡ map spelled_function functions.old.items ++ spelled_in (store_of found.now) item.now) }
{
    match item {
        SpelledItem::Define {
            name,
            result,
            first,
            count,
            entry,
            blocks,
        } => match functions.push(SpelledFunction {
            name: *name,
            result: *result,
            parameters: items_from(&found.parameters, *first, *count),
            blocks: items_from(&found.bodies.blocks, *entry, *blocks),
        }) {
            Ok(()) => Ok(()),
            Err(_) => Err(OutOfMemory),
        },
        _ => Ok(()),
    }
}

/// The functions that a text defines, in order of the text.
pub(crate) fn spelled_functions<'a>(
    alloc: Global,
    found: &'a Spellings,
) -> Result<Vec<SpelledFunction<'a>>, OutOfMemory>
    ensures { IfOk result (λ functions. map spelled_function functions.items ≡ functions_in (store_of found.now)) }
{
    let mut functions = Vec::new(alloc);
    let mut rest = found.items.as_slice();
    while let [item, after @ ..] = rest {
        push_function(&mut functions, found, item)?;
        rest = after;
    }
    Ok(functions)
}

/// The keys of the names of functions.
pub(crate) fn function_keys(
    alloc: Global,
    source: &[u8],
    functions: &[SpelledFunction],
) -> Result<Vec<Vec<u8>>, OutOfMemory>
    ensures { IfOk result (λ keys. keys_in keys.items ≡ function_keys source.now (map spelled_function functions.now)) }
{
    let mut keys = Vec::new(alloc);
    let mut rest = functions;
    while let [function, after @ ..] = rest {
        keys.push(global_key(alloc, source, &function.name)?)?;
        rest = after;
    }
    Ok(keys)
}

/// Adds the key of the name of the function of the outside that an item declares, if it declares one.
fn push_declare_key(
    keys: &mut Vec<Vec<u8>>,
    alloc: Global,
    source: &[u8],
    item: &SpelledItem,
    lib: Option<Lib>,
) -> Result<(), OutOfMemory>
    ensures { OnOk result (keys_in keys.new.items ≡ keys_in keys.old.items ++ declare_key source.now item.now lib) }
{
    if lib.is_none() {
        return Ok(());
    }
    match item {
        SpelledItem::Declare { name, .. } => {
            keys.push(global_key(alloc, source, name)?)?;
            Ok(())
        }
        _ => Ok(()),
    }
}

/// The keys of the names of the functions of the outside that items declare. `libs` has one entry an item.
pub(crate) fn declare_keys(
    alloc: Global,
    source: &[u8],
    items: &[SpelledItem],
    libs: &[Option<Lib>],
) -> Result<Vec<Vec<u8>>, OutOfMemory>
    ensures { IfOk result (λ keys. keys_in keys.items ≡ declare_keys source.now items.now libs.now) }
{
    let mut keys = Vec::new(alloc);
    let mut rest = items;
    let mut functions = libs;
    while let [item, after @ ..] = rest {
        let [lib, others @ ..] = functions else {
            return Ok(keys);
        };
        push_declare_key(&mut keys, alloc, source, item, *lib)?;
        rest = after;
        functions = others;
    }
    Ok(keys)
}

/// What metadata nodes describe.
pub(crate) fn kinds_of(alloc: Global, nodes: &[Node]) -> Result<Vec<NodeKind>, OutOfMemory>
    ensures { IfOk result (λ kinds. kinds.items ≡ map (λ n. n.kind) nodes.now) }
{
    let kinds = nodes.iter().map(|node| node.kind).collect(alloc)?;
    Ok(kinds)
}

/// The first fault of a name in the bodies of functions, beside the first so far.
pub(crate) fn beside_functions(
    alloc: Global,
    names: &Names,
    functions: &[SpelledFunction],
    first: Option<NameFault>,
) -> Result<Option<NameFault>, OutOfMemory>
    ensures { IfOk result (λ fault. fault ≡ first_beside first (function_faults (surroundings_of names.now) (map spelled_function functions.now))) }
{
    let mut fault = first;
    let mut rest = functions;
    while let [function, after @ ..] = rest {
        fault = beside_body(alloc, names, function.parameters, function.blocks, fault)?;
        rest = after;
    }
    Ok(fault)
}

/// The functions with their names resolved, of which none has a fault.
pub(crate) fn resolved_functions(
    alloc: Global,
    values: &Initializers,
    names: &Names,
    functions: &[SpelledFunction],
) -> Result<FunctionList, OutOfMemory>
    requires ready { IsReady values.now }
    requires types { length names.now.types.now + 300 < 2 ^ 32 }
    requires functions { length names.now.functions.now < 2 ^ 32 }
    requires declares { length names.now.declares.now < 2 ^ 32 }
    requires nodes { length names.now.nodes.now < 2 ^ 32 }
    requires short { Each (IsShort (surroundings_of names.now)) (map spelled_function functions.now) }
    ensures { IfOk result (λ found. found ≡ map (function_of (surroundings_of names.now) (tables_of values.now) values.now.module.now) (map spelled_function functions.now)) }
{
    let mut found = FunctionList::new(alloc);
    let mut rest = functions;
    while let [function, after @ ..] = rest {
        found.push(function_of(alloc, values, names, function)?)?;
        rest = after;
    }
    Ok(found)
}
