ghost use Rattle.std.specs.Prelude.{◌≡◌, ◌<◌, ◌≤◌, ◌^◌, ◌*◌, map, length, IfOk, Some};
ghost use Rattle.hw_base.specs.declared.numbers.TheConstants.{MOST_TEXT};
ghost use Rattle.ir_core.specs.Resolved.{HasLayouts};
ghost use Rattle.ir_core.specs.Tokenisation.{IsTokenisation, place_after};
ghost use Rattle.ir_grammar.specs.Spelled.{store_of};
ghost use Rattle.ir_names.specs.First.{first_fault};
ghost use Rattle.ir_names.specs.Faults.{name_faults};
ghost use Rattle.ir_names.specs.Meanings.{variables_of};
ghost use Rattle.ir_names.specs.Places.{keys_in};
ghost use Rattle.ir_body_names.specs.Views.{surroundings_of};
ghost use Rattle.ir_read_items.specs.Rows.{Each};
ghost use Rattle.ir_functions.specs.Resolution.{spelled_function};
ghost use Rattle.ir_read_top.specs.Module.{AreLibsOf};
ghost use Rattle.ir_read_top.specs.Functions.{IsShort};
ghost use Rattle.ir_read_top.specs.Globals.{tables};
ghost use Rattle.ir_read_top.specs.Texts.{IsGathered, ReadsText};
ghost use Rattle.ir_read_top.specs.Assembly.{IsOutline};
ghost use Rattle.ir_read_top.specs.Bodies.{AreKeys, surroundings_by, AreFew, functions_made, GivesFunctions, Completes};

use crate::assembly::Outline;
use crate::entry::main_of;
use crate::functions::{
    beside_functions, declare_keys, function_keys, kinds_of, resolved_functions, spelled_functions,
};
use crate::reading::refusal_at;
use dbg_sites::{check_scopes, node_numbers};
use hw_base::OutOfMemory;
use ir_body_names::Names;
use ir_core::{Fault, FunctionList, Lib, Module, NodeKind, ReadError, Tokens};
use ir_first_values::{FieldOffsets, Initializers};
use ir_functions::SpelledFunction;
use ir_grammar::Spellings;
use ir_lex::end_of;
use ir_names::{Index, NameFault, References};
use std::alloc::Global;

/// The keys of the names that bodies may use from outside, and what the metadata nodes among them describe.
#[derive(Drop)]
pub(crate) struct Keys {
    pub(crate) functions: Vec<Vec<u8>>,
    pub(crate) declares: Vec<Vec<u8>>,
    pub(crate) nodes: Vec<Vec<u8>>,
    pub(crate) kinds: Vec<NodeKind>,
}

/// The functions of a module, and the number of its `main`.
#[derive(Drop)]
pub(crate) struct Functions {
    pub(crate) list: FunctionList,
    pub(crate) main: u32,
}

/// The keys of the names that bodies may use from outside.
fn keys_of(
    alloc: Global,
    tokens: &Tokens,
    found: &Spellings,
    libs: &[Option<Lib>],
    module: &Module,
    functions: &[SpelledFunction],
) -> Result<Keys, OutOfMemory>
    ensures { IfOk result (λ keys. AreKeys tokens.now.source tokens.now.tokens (store_of found.now) libs.now «module».now (map spelled_function functions.now) keys) }
{
    let source = tokens.source();
    Ok(Keys {
        functions: function_keys(alloc, source, functions)?,
        declares: declare_keys(alloc, source, &found.items, libs)?,
        nodes: node_numbers(alloc, tokens)?,
        kinds: kinds_of(alloc, module.meta.as_slice())?,
    })
}

/// The functions of a module whose types and variables are there.
fn functions_of(
    alloc: Global,
    tokens: &Tokens,
    found: &Spellings,
    references: &References,
    outline: &Outline,
    names: &Names,
    functions: &[SpelledFunction],
) -> Result<FunctionList, OutOfMemory>
    requires layouts { HasLayouts outline.now.module }
    requires variables { references.now.variables.items ≡ variables_of tokens.now.source (store_of found.now).items (store_of found.now) }
    requires few { AreFew (surroundings_of names.now) }
    requires short { Each (IsShort (surroundings_of names.now)) (map spelled_function functions.now) }
    ensures { IfOk result (λ list. list ≡ functions_made (surroundings_of names.now) (tables tokens.now.source (store_of found.now) outline.now.numbers.items outline.now.classes.items outline.now.module) outline.now.module (map spelled_function functions.now)) }
{
    let offsets = FieldOffsets::new(alloc, &outline.module)?;
    let values = Initializers {
        module: &outline.module,
        offsets: &offsets,
        found,
        source: tokens.source(),
        numbers: &outline.numbers,
        classes: &outline.classes,
        variables: &references.variables,
    };
    resolved_functions(alloc, &values, names, functions)
}

/// The functions of a module and its `main`, or the first fault of a name, beside the first so far, or that there is no `main`.
fn named_functions(
    alloc: Global,
    tokens: &Tokens,
    found: &Spellings,
    references: &References,
    outline: &Outline,
    names: &Names,
    functions: &[SpelledFunction],
    first: Option<NameFault>,
) -> Result<Functions, ReadError>
    requires layouts { HasLayouts outline.now.module }
    requires variables { references.now.variables.items ≡ variables_of tokens.now.source (store_of found.now).items (store_of found.now) }
    requires few { AreFew (surroundings_of names.now) }
    requires short { Each (IsShort (surroundings_of names.now)) (map spelled_function functions.now) }
    requires count { length functions.now < 2 ^ 32 }
    requires source { length tokens.now.source ≤ MOST_TEXT }
    ensures { GivesFunctions tokens.now.source (store_of found.now) (surroundings_of names.now) (tables tokens.now.source (store_of found.now) outline.now.numbers.items outline.now.classes.items outline.now.module) outline.now.module (map spelled_function functions.now) first result }
{
    if let Some(fault) = beside_functions(alloc, names, functions, first)? {
        return Err(ReadError::Refused(refusal_at(fault.fault, fault.at.place)));
    }
    let main = main_of(alloc, tokens, &found.types, &outline.numbers, functions)?;
    match main {
        None => Err(ReadError::Refused(refusal_at(Fault::NoMain, end_of(tokens.source())))),
        Some(main) => Ok(Functions {
            list: functions_of(alloc, tokens, found, references, outline, names, functions)?,
            main,
        }),
    }
}

/// The same, by the keys of names and where each is first.
fn functions_at<'k>(
    alloc: Global,
    tokens: &Tokens,
    found: &Spellings,
    references: &References,
    outline: &Outline,
    keys: &Keys,
    function_index: &Index<'k>,
    declare_index: &Index<'k>,
    node_index: &Index<'k>,
    functions: &[SpelledFunction],
    first: Option<NameFault>,
) -> Result<Functions, ReadError>
    requires layouts { HasLayouts outline.now.module }
    requires variables { references.now.variables.items ≡ variables_of tokens.now.source (store_of found.now).items (store_of found.now) }
    requires few { AreFew (surroundings_by tokens.now.source (store_of found.now) outline.now.numbers.items keys.now) }
    requires short { Each (IsShort (surroundings_by tokens.now.source (store_of found.now) outline.now.numbers.items keys.now)) (map spelled_function functions.now) }
    requires count { length functions.now < 2 ^ 32 }
    requires source { length tokens.now.source ≤ MOST_TEXT }
    requires functions { function_index.now ≡ keys_in keys.now.functions.items }
    requires declares { declare_index.now ≡ keys_in keys.now.declares.items }
    requires nodes { node_index.now ≡ keys_in keys.now.nodes.items }
    ensures { GivesFunctions tokens.now.source (store_of found.now) (surroundings_by tokens.now.source (store_of found.now) outline.now.numbers.items keys.now) (tables tokens.now.source (store_of found.now) outline.now.numbers.items outline.now.classes.items outline.now.module) outline.now.module (map spelled_function functions.now) first result }
{
    let names = Names {
        source: tokens.source(),
        types: &found.types,
        numbers: &outline.numbers,
        bodies: &found.bodies,
        functions: &*function_index,
        declares: &*declare_index,
        nodes: &*node_index,
        kinds: &keys.kinds,
    };
    named_functions(
        alloc, tokens, found, references, outline, &names, functions, first,
    )
}

/// The same, by the keys of names.
fn functions_by(
    alloc: Global,
    tokens: &Tokens,
    found: &Spellings,
    references: &References,
    outline: &Outline,
    keys: &Keys,
    functions: &[SpelledFunction],
    first: Option<NameFault>,
) -> Result<Functions, ReadError>
    requires layouts { HasLayouts outline.now.module }
    requires variables { references.now.variables.items ≡ variables_of tokens.now.source (store_of found.now).items (store_of found.now) }
    requires few { AreFew (surroundings_by tokens.now.source (store_of found.now) outline.now.numbers.items keys.now) }
    requires short { Each (IsShort (surroundings_by tokens.now.source (store_of found.now) outline.now.numbers.items keys.now)) (map spelled_function functions.now) }
    requires count { length functions.now < 2 ^ 32 }
    requires source { length tokens.now.source ≤ MOST_TEXT }
    ensures { GivesFunctions tokens.now.source (store_of found.now) (surroundings_by tokens.now.source (store_of found.now) outline.now.numbers.items keys.now) (tables tokens.now.source (store_of found.now) outline.now.numbers.items outline.now.classes.items outline.now.module) outline.now.module (map spelled_function functions.now) first result }
{
    let function_index = Index::new(alloc, &keys.functions)?;
    let declare_index = Index::new(alloc, &keys.declares)?;
    let node_index = Index::new(alloc, &keys.nodes)?;
    functions_at(
        alloc,
        tokens,
        found,
        references,
        outline,
        keys,
        &function_index,
        &declare_index,
        &node_index,
        functions,
        first,
    )
}

/// The module with its functions, or the refusal of a chain of scopes that never ends.
fn completed(module: Module, functions: Functions) -> Result<Module, ReadError>
    ensures { Completes «module» functions result }
{
    let Functions { list, main } = functions;
    let mut whole = module;
    whole.functions = list;
    whole.main = main;
    match check_scopes(&whole) {
        Ok(()) => Ok(whole),
        Err(refusal) => Err(ReadError::Refused(refusal)),
    }
}

/// The module of a text with its functions, or its first fault: of a name, beside the first outside bodies, or of a later phase.
pub(crate) fn read_functions(
    alloc: Global,
    tokens: &Tokens,
    found: &Spellings,
    libs: &[Option<Lib>],
    references: &References,
    outline: Outline,
    first: Option<NameFault>,
) -> Result<Module, ReadError>
    requires short { length tokens.now.source ≤ MOST_TEXT }
    requires few { length tokens.now.tokens ≤ MOST_TEXT }
    requires cut { IsTokenisation tokens.now.source tokens.now.tokens }
    requires gathered { IsGathered tokens.now.source tokens.now.tokens (store_of found.now) }
    requires libs { AreLibsOf tokens.now.source (store_of found.now).items libs.now }
    requires variables { references.now.variables.items ≡ variables_of tokens.now.source (store_of found.now).items (store_of found.now) }
    requires outline { IsOutline tokens.now.source tokens.now.tokens (store_of found.now) libs.now outline }
    requires first { first ≡ first_fault (name_faults tokens.now.source (store_of found.now).items (store_of found.now)) }
    ensures { ReadsText tokens.now.source result }
{
    let functions = spelled_functions(alloc, found)?;
    let keys = keys_of(alloc, tokens, found, libs, &outline.module, &functions)?;
    match functions_by(
        alloc, tokens, found, references, &outline, &keys, &functions, first,
    ) {
        Ok(made) => completed(outline.module, made),
        Err(error) => Err(error),
    }
}
