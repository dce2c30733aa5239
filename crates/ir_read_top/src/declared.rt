ghost use Rattle.std.specs.Prelude.{◌≡◌, ◌++◌, take, drop, IfOk, OnOk};
ghost use Rattle.ir_core.specs.Externals.{IsExternal};
ghost use Rattle.ir_core.specs.Tokens.{bytes_of};
ghost use Rattle.ir_text.specs.Names.{global_name};
ghost use Rattle.ir_grammar.specs.Spelled.{store_of};
ghost use Rattle.ir_type_numbers.specs.Numbering.{number_at};
ghost use Rattle.ir_read_top.specs.Module.{IsLibOf, AreLibsOf, parameter_types, declare_of, declares_of};

use hw_base::{ByteList, OutOfMemory};
use ir_core::{Declare, DeclareList, Lib, Token, Tokens, TypeIdList, external};
use ir_grammar::{SpelledItem, SpelledParameter};
use ir_text::name_bytes;
use std::alloc::Global;

/// The number at a place in a list, 0 past its end.
pub(crate) fn number_at(numbers: &[u32], n: usize) -> u32
    ensures { result ≡ number_at numbers.now n }
{
    numbers.get(n).copied().unwrap_or(0)
}

/// The bytes without the first.
fn behind_sigil(bytes: &[u8]) -> &[u8]
    ensures { result.now ≡ drop 1 bytes.now }
{
    match bytes {
        [] => bytes,
        [_, rest @ ..] => rest,
    }
}

/// The bytes that a global's name stands for.
pub(crate) fn global_name(
    alloc: Global,
    tokens: &Tokens,
    name: &Token,
) -> Result<ByteList, OutOfMemory>
    ensures { IfOk result (λ bytes. bytes ≡ global_name (bytes_of tokens.now.source name.now)) }
{
    name_bytes(alloc, behind_sigil(tokens.text_of(name)))
}

/// The function of the outside that an item declares, if it declares one.
fn lib_of(alloc: Global, tokens: &Tokens, item: &SpelledItem) -> Result<Option<Lib>, OutOfMemory>
    ensures { IfOk result (λ lib. IsLibOf tokens.now.source item.now lib) }
{
    match item {
        SpelledItem::Declare { name, .. } => {
            let bytes = global_name(alloc, tokens, name)?;
            Ok(external(bytes.as_slice()))
        }
        _ => Ok(None),
    }
}

/// The functions of the outside that items declare, one an item.
pub(crate) fn libs_of(
    alloc: Global,
    tokens: &Tokens,
    items: &[SpelledItem],
) -> Result<Vec<Option<Lib>>, OutOfMemory>
    ensures { IfOk result (λ libs. AreLibsOf tokens.now.source items.now libs.items) }
{
    let mut libs = Vec::new(alloc);
    let mut rest = items;
    while let [item, after @ ..] = rest {
        libs.push(lib_of(alloc, tokens, item)?)?;
        rest = after;
    }
    Ok(libs)
}

/// The numbers of the types of parameters.
fn parameter_types(
    alloc: Global,
    numbers: &[u32],
    parameters: &[SpelledParameter],
) -> Result<TypeIdList, OutOfMemory>
    ensures { IfOk result (λ types. types ≡ parameter_types numbers.now parameters.now) }
{
    let types = parameters
        .iter()
        .map(|p| number_at(numbers, p.ty))
        .collect(alloc)?;
    Ok(TypeIdList::from_vec(types))
}

/// The parameters from `first` on, at most so many.
fn parameters_from(
    parameters: &[SpelledParameter],
    first: usize,
    count: usize,
) -> &[SpelledParameter]
    ensures { result.now ≡ take count (drop first parameters.now) }
{
    let from = parameters.len().min(first);
    let rest = &parameters[from..];
    let to = rest.len().min(count);
    &rest[..to]
}

/// Adds the declare of an item, if it declares a function of the outside.
fn push_declare(
    declares: &mut DeclareList,
    alloc: Global,
    numbers: &[u32],
    parameters: &[SpelledParameter],
    item: &SpelledItem,
    lib: Option<Lib>,
) -> Result<(), OutOfMemory>
    ensures { OnOk result (declares.new ≡ declares.old ++ declare_of numbers.now parameters.now item.now lib) }
{
    let Some(lib) = lib else {
        return Ok(());
    };
    match item {
        SpelledItem::Declare {
            name,
            result,
            first,
            count,
        } => {
            let params = parameter_types(
                alloc,
                numbers,
                parameters_from(parameters, *first, *count),
            )?;
            declares.push(Declare {
                lib,
                result: number_at(numbers, *result),
                params,
                place: name.place,
            })
        }
        _ => Ok(()),
    }
}

/// The declares of functions of the outside, in order of the text. `libs` has one entry an item.
pub(crate) fn declares_of(
    alloc: Global,
    numbers: &[u32],
    parameters: &[SpelledParameter],
    items: &[SpelledItem],
    libs: &[Option<Lib>],
) -> Result<DeclareList, OutOfMemory>
    ensures { IfOk result (λ declares. declares ≡ declares_of numbers.now parameters.now items.now libs.now) }
{
    let mut declares = DeclareList::new(alloc);
    let mut rest = items;
    let mut functions = libs;
    while let [item, after @ ..] = rest {
        let [lib, others @ ..] = functions else {
            return Ok(declares);
        };
        push_declare(&mut declares, alloc, numbers, parameters, item, *lib)?;
        rest = after;
        functions = others;
    }
    Ok(declares)
}
