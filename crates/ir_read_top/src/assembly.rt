ghost use Rattle.std.specs.Prelude.{◌≡◌, ◌<◌, ◌^◌, ◌++◌, [], length, IfOk};
ghost use Rattle.ir_core.specs.Layout.{layouts_of};
ghost use Rattle.ir_grammar.specs.Spelled.{store_of};
ghost use Rattle.ir_grammar.specs.SoundStore.{IsSoundStore, size_of};
ghost use Rattle.ir_grammar.specs.DebugNodes.{kept_nodes};
ghost use Rattle.ir_core.specs.Resolved.{HasLayouts};
ghost use Rattle.ir_names.specs.Meanings.{leads_of, variables_of};
ghost use Rattle.ir_type_numbers.specs.Numbering.{stands_for, module_types, module_fields};
ghost use Rattle.ir_functions.specs.Given.{given_types};
ghost use Rattle.ir_read_top.specs.Module.{named_marks, all_pairs, declares_of};
ghost use Rattle.ir_read_top.specs.Globals.{AreClasses, tables, globals_of};
ghost use Rattle.ir_read_top.specs.Assembly.{HasVariables, IsAssembled, IsOutline};

use crate::declared::declares_of;
use crate::given::add_given_types;
use crate::global_variables::globals_of;
use crate::marks::named_marks;
use crate::pairs::{with_calls, with_pairs};
use dbg_sites::read_meta;
use hw_base::OutOfMemory;
use ir_core::{FunctionList, GlobalList, Lib, Module, Tokens, TypeIdList, TypeList, layouts};
use ir_first_values::{FieldOffsets, Initializers};
use ir_grammar::Spellings;
use ir_names::References;
use ir_type_numbers::{NumberedTypes, classes, number_types};
use std::alloc::Global;

/// All that a text spells but its functions, with what functions are made from.
#[derive(Drop)]
pub(crate) struct Outline {
    pub(crate) module: Module,
    /// For each spelled type the number of the type that it stands for.
    pub(crate) numbers: Vec<u32>,
    /// For each type of the module its class.
    pub(crate) classes: Vec<u64>,
}

/// The types of a module, with pairs as the results of intrinsics with overflow, declared and called, and after them those of values whose
/// type isn't spelled. `libs` has one entry an item.
fn with_all_pairs(
    alloc: Global,
    found: &Spellings,
    numbered: NumberedTypes,
    libs: &[Option<Lib>],
) -> Result<NumberedTypes, OutOfMemory>
    ensures numbers { IfOk result (λ n. n.numbers.items ≡ numbered.numbers.items) }
    ensures types { IfOk result (λ n. n.types ≡ all_pairs (store_of found.now).types numbered.fields numbered.types (store_of found.now).items libs.now (store_of found.now).bodies.instructions ++ given_types) }
    ensures fields { IfOk result (λ n. n.fields ≡ numbered.fields) }
{
    let mut types = Vec::from_slice(alloc, numbered.types.as_slice())?;
    with_pairs(
        &found.types,
        numbered.fields.as_slice(),
        &mut types,
        &found.items,
        libs,
    );
    with_calls(
        &found.types,
        numbered.fields.as_slice(),
        &mut types,
        &found.bodies.instructions,
    );
    add_given_types(alloc, &mut types)?;
    Ok(NumberedTypes {
        numbers: numbered.numbers,
        types: TypeList::from_vec(types),
        fields: numbered.fields,
    })
}

/// The types of a module by number.
fn types_of(
    alloc: Global,
    found: &Spellings,
    leads: &[usize],
    libs: &[Option<Lib>],
) -> Result<NumberedTypes, OutOfMemory>
    requires sound { IsSoundStore (store_of found.now) }
    requires small { size_of (store_of found.now) < 2 ^ 32 }
    ensures numbers { IfOk result (λ n. n.numbers.items ≡ stands_for (store_of found.now).types leads.now) }
    ensures types { IfOk result (λ n. n.types ≡ all_pairs (store_of found.now).types n.fields (module_types (store_of found.now).types (stands_for (store_of found.now).types leads.now)) (store_of found.now).items libs.now (store_of found.now).bodies.instructions ++ given_types) }
    ensures fields { IfOk result (λ n. n.fields ≡ module_fields (store_of found.now).fields (stands_for (store_of found.now).types leads.now)) }
{
    let numbered = number_types(alloc, &found.types, &found.fields, leads)?;
    with_all_pairs(alloc, found, numbered, libs)
}

/// The module of these types, without its global variables.
fn without_variables(
    alloc: Global,
    tokens: &Tokens,
    found: &Spellings,
    numbers: &[u32],
    types: TypeList,
    fields: TypeIdList,
    libs: &[Option<Lib>],
) -> Result<Module, OutOfMemory>
    requires { length tokens.now.tokens < 2 ^ 32 }
    ensures types { IfOk result (λ m. m.types ≡ types) }
    ensures fields { IfOk result (λ m. m.fields ≡ fields) }
    ensures layouts { IfOk result (λ m. m.layouts ≡ layouts_of types fields) }
    ensures globals { IfOk result (λ m. m.globals ≡ []) }
    ensures declares { IfOk result (λ m. m.declares ≡ declares_of numbers.now (store_of found.now).parameters (store_of found.now).items libs.now) }
    ensures functions { IfOk result (λ m. m.functions ≡ []) }
    ensures main { IfOk result (λ m. m.main ≡ 0) }
    ensures meta { IfOk result (λ m. m.meta ≡ kept_nodes tokens.now.source tokens.now.tokens) }
{
    let declares = declares_of(alloc, numbers, &found.parameters, &found.items, libs)?;
    let layouts = layouts(alloc, &types, &fields)?;
    let meta = read_meta(alloc, tokens)?;
    Ok(Module {
        types,
        fields,
        layouts,
        globals: GlobalList::new(alloc),
        declares,
        functions: FunctionList::new(alloc),
        main: 0,
        meta,
    })
}

/// The module of these types, with its global variables.
fn assembled(
    alloc: Global,
    tokens: &Tokens,
    found: &Spellings,
    references: &References,
    numbered: NumberedTypes,
    libs: &[Option<Lib>],
) -> Result<Outline, OutOfMemory>
    requires few { length tokens.now.tokens < 2 ^ 32 }
    requires names { references.now.variables.items ≡ variables_of tokens.now.source (store_of found.now).items (store_of found.now) }
    ensures numbers { IfOk result (λ o. o.numbers.items ≡ numbered.numbers.items) }
    ensures assembled { IfOk result (λ o. IsAssembled tokens.now.source tokens.now.tokens (store_of found.now) numbered.numbers.items numbered.types numbered.fields o.classes.items libs.now o.module) }
{
    let NumberedTypes {
        numbers,
        types,
        fields,
    } = numbered;
    let bare = without_variables(alloc, tokens, found, &numbers, types, fields, libs)?;
    with_variables(alloc, tokens, found, references, numbers, bare)
}

/// The classes of the types of a module: two that don't hold themselves are one exactly if these are equal.
fn classes_of(alloc: Global, bare: &Module, found: &Spellings) -> Result<Vec<u64>, OutOfMemory>
    ensures { IfOk result (λ classes. AreClasses bare.now.types bare.now.fields (named_marks (store_of found.now).items (store_of found.now).types) classes.items) }
{
    let named = named_marks(alloc, &found.items, found.types.len())?;
    let classes = classes(alloc, &bare.types, &bare.fields, &named)?;
    Ok(classes)
}

/// The global variables of a module whose types are there.
fn variables(
    alloc: Global,
    tokens: &Tokens,
    found: &Spellings,
    bare: &Module,
    numbers: &[u32],
    classes: &[u64],
    names: &[Option<u32>],
) -> Result<GlobalList, OutOfMemory>
    requires layouts { HasLayouts bare.now }
    requires names { names.now ≡ variables_of tokens.now.source (store_of found.now).items (store_of found.now) }
    ensures { IfOk result (λ globals. globals ≡ globals_of (tables tokens.now.source (store_of found.now) numbers.now classes.now bare.now) (store_of found.now).items) }
{
    let offsets = FieldOffsets::new(alloc, bare)?;
    let values = Initializers {
        module: bare,
        offsets: &offsets,
        found,
        source: tokens.source(),
        numbers,
        classes,
        variables: names,
    };
    globals_of(alloc, tokens, &values, &found.items)
}

/// A module whose types are there, with its global variables.
fn with_variables(
    alloc: Global,
    tokens: &Tokens,
    found: &Spellings,
    references: &References,
    numbers: Vec<u32>,
    bare: Module,
) -> Result<Outline, OutOfMemory>
    requires layouts { HasLayouts bare }
    requires names { references.now.variables.items ≡ variables_of tokens.now.source (store_of found.now).items (store_of found.now) }
    ensures { IfOk result (λ o. HasVariables tokens.now.source (store_of found.now) numbers.items bare o) }
{
    let classes = classes_of(alloc, &bare, found)?;
    let globals = variables(
        alloc,
        tokens,
        found,
        &bare,
        &numbers,
        &classes,
        &references.variables,
    )?;
    let mut module = bare;
    module.globals = globals;
    Ok(Outline {
        module,
        numbers,
        classes,
    })
}

/// All that a text spells but its functions, by what was read of it, what its names mean, and the functions of the outside
/// that its items declare, one entry an item.
pub(crate) fn outline_of(
    alloc: Global,
    tokens: &Tokens,
    found: &Spellings,
    references: &References,
    libs: &[Option<Lib>],
) -> Result<Outline, OutOfMemory>
    requires few { length tokens.now.tokens < 2 ^ 32 }
    requires sound { IsSoundStore (store_of found.now) }
    requires small { size_of (store_of found.now) < 2 ^ 32 }
    requires leads { references.now.leads.items ≡ leads_of tokens.now.source (store_of found.now).items (store_of found.now) }
    requires names { references.now.variables.items ≡ variables_of tokens.now.source (store_of found.now).items (store_of found.now) }
    ensures { IfOk result (λ o. IsOutline tokens.now.source tokens.now.tokens (store_of found.now) libs.now o) }
{
    let numbered = types_of(alloc, found, &references.leads, libs)?;
    assembled(alloc, tokens, found, references, numbered, libs)
}
