ghost use Rattle.std.specs.Prelude.{◌≡◌, [], IfOk};
ghost use Rattle.std.specs.List.{flat_map};
ghost use Rattle.ir_names.specs.First.{first_beside};
ghost use Rattle.ir_body_names.specs.BodyFaults.{is_taken, definition_faults, definitions_faults, is_register, is_block, definition_at, is_place, is_location_at, node_place, local_place, is_callable, is_there, used_token, use_faults, faults_by, body_faults};
ghost use Rattle.ir_body_names.specs.Views.{surroundings_of};

use crate::counters::{is_less, low_digits};
use crate::definitions::{Definition, definitions_of};
use crate::keys::{counter_after, definition_keys, written};
use crate::names::Names;
use crate::uses::{Use, uses};
use hw_base::OutOfMemory;
use ir_core::{Fault, NodeKind, Token, TokenKind};
use ir_grammar::{SpelledBlock, SpelledParameter};
use ir_names::{Index, NameFault, behind_sigil, beside_fault_if, global_key, is_number, text_of};
use ir_text::{name_key, number_behind_bang};
use std::alloc::Global;

/// Whether the name of the definition with number `i` is taken.
fn is_taken(
    alloc: Global,
    index: &Index,
    i: usize,
    counter: &[u8],
    text: &[u8],
) -> Result<bool, OutOfMemory>
    ensures { IfOk result (λ taken. taken ≡ is_taken index.now i counter.now text.now) }
{
    if is_number(text) {
        let digits = low_digits(alloc, text)?;
        Ok(is_less(digits.as_slice(), counter))
    } else {
        let key = name_key(alloc, text)?;
        Ok(index.is_repeated(i, key.as_slice()))
    }
}

/// The first fault, beside that at the name of the definition with number `i`.
fn beside_definition(
    alloc: Global,
    source: &[u8],
    index: &Index,
    i: usize,
    counter: &[u8],
    definition: &Definition,
    first: Option<NameFault>,
) -> Result<Option<NameFault>, OutOfMemory>
    ensures { IfOk result (λ f. f ≡ first_beside first (definition_faults source.now index.now i counter.now definition.now.is_block definition.now.name)) }
{
    match definition.name {
        None => Ok(first),
        Some(token) => {
            let text = written(source, definition.is_block, &token);
            let taken = is_taken(alloc, index, i, counter, text)?;
            Ok(beside_fault_if(first, taken, Fault::Twice, token))
        }
    }
}

/// The first fault, beside those at the names of definitions.
fn beside_definitions(
    alloc: Global,
    source: &[u8],
    index: &Index,
    defined: &[Definition],
    first: Option<NameFault>,
) -> Result<Option<NameFault>, OutOfMemory>
    ensures { IfOk result (λ f. f ≡ first_beside first (definitions_faults source.now index.now 0 [] defined.now)) }
{
    let _count = defined.len();
    let mut found = first;
    let mut i: usize = 0;
    let mut counter = Vec::new(alloc);
    let mut rest = defined;
    while let [definition, after @ ..] = rest {
        found = beside_definition(
            alloc,
            source,
            index,
            i,
            counter.as_slice(),
            definition,
            found,
        )?;
        counter = counter_after(alloc, source, counter, definition)?;
        i += 1;
        rest = after;
    }
    Ok(found)
}

/// The place of the definition that a local names, by the index of the keys of all definitions. The only error is running out
/// of memory.
pub fn local_place(
    alloc: Global,
    source: &[u8],
    index: &Index,
    token: &Token,
) -> Result<Option<usize>, OutOfMemory>
    ensures { IfOk result (λ place. place ≡ local_place source.now index.now token.now) }
{
    let key = name_key(alloc, behind_sigil(source, token))?;
    Ok(index.first_with(key.as_slice()))
}

/// Whether a register is defined at a place.
fn is_register_at(defined: &[Definition], place: Option<usize>) -> bool
    ensures { result ≡ is_register (definition_at defined.now place) }
{
    match place {
        None => false,
        Some(place) => match defined.get(place) {
            None => false,
            Some(definition) => !definition.is_block,
        },
    }
}

/// Whether a block is defined at a place.
fn is_block_at(defined: &[Definition], place: Option<usize>) -> bool
    ensures { result ≡ is_block (definition_at defined.now place) }
{
    match place {
        None => false,
        Some(place) => match defined.get(place) {
            None => false,
            Some(definition) => definition.is_block,
        },
    }
}

/// Whether the place is this one.
fn is_place(entry: usize, place: Option<usize>) -> bool
    ensures { result ≡ is_place entry place }
{
    match place {
        None => false,
        Some(place) => place == entry,
    }
}

/// The number of the node that a token names, by the index of the nodes' numbers.
pub fn node_place(source: &[u8], nodes: &Index, token: &Token) -> Option<usize>
    ensures { result ≡ node_place source.now nodes.now token.now }
{
    match token.kind {
        TokenKind::MetaNumber => nodes.first_with(number_behind_bang(text_of(source, token))),
        _ => None,
    }
}

/// Whether a node is a location.
fn is_location_at(kinds: &[NodeKind], node: Option<usize>) -> bool
    ensures { result ≡ is_location_at kinds.now node }
{
    match node {
        None => false,
        Some(node) => matches!(kinds.get(node), Some(NodeKind::Location)),
    }
}

/// Whether a function by this name can be called.
fn is_callable(alloc: Global, names: &Names, token: &Token) -> Result<bool, OutOfMemory>
    ensures { IfOk result (λ b. b ≡ is_callable (surroundings_of names.now) token.now) }
{
    let key = global_key(alloc, names.source, token)?;
    let defined = names.functions.first_with(key.as_slice());
    let declared = names.declares.first_with(key.as_slice());
    Ok(defined.is_some() || declared.is_some())
}

/// Whether what a name is used for is there.
fn is_there(
    alloc: Global,
    names: &Names,
    index: &Index,
    defined: &[Definition],
    entry: usize,
    used: &Use,
) -> Result<bool, OutOfMemory>
    ensures { IfOk result (λ b. b ≡ is_there (surroundings_of names.now) index.now defined.now entry used.now) }
{
    match used {
        Use::Register(name) => {
            let place = local_place(alloc, names.source, index, name)?;
            Ok(is_register_at(defined, place))
        }
        Use::Target(name) => {
            let place = local_place(alloc, names.source, index, name)?;
            Ok(is_block_at(defined, place) && !is_place(entry, place))
        }
        Use::Origin(name) => {
            let place = local_place(alloc, names.source, index, name)?;
            Ok(is_block_at(defined, place))
        }
        Use::Location(node) => {
            let place = node_place(names.source, names.nodes, node);
            Ok(is_location_at(names.kinds, place))
        }
        Use::Callee(name) => is_callable(alloc, names, name),
    }
}

/// The token of a name that is used.
fn used_token(used: &Use) -> Token
    ensures { result ≡ used_token used.now }
{
    match used {
        Use::Register(name) => *name,
        Use::Target(name) => *name,
        Use::Origin(name) => *name,
        Use::Location(node) => *node,
        Use::Callee(name) => *name,
    }
}

/// The first fault, beside that at a use.
fn beside_use(
    alloc: Global,
    names: &Names,
    index: &Index,
    defined: &[Definition],
    entry: usize,
    used: &Use,
    first: Option<NameFault>,
) -> Result<Option<NameFault>, OutOfMemory>
    ensures { IfOk result (λ f. f ≡ first_beside first (use_faults (surroundings_of names.now) index.now defined.now entry used.now)) }
{
    let there = is_there(alloc, names, index, defined, entry, used)?;
    Ok(beside_fault_if(first, !there, Fault::Unknown, used_token(used)))
}

/// The first fault, beside those at uses.
fn beside_uses(
    alloc: Global,
    names: &Names,
    index: &Index,
    defined: &[Definition],
    entry: usize,
    used: &[Use],
    first: Option<NameFault>,
) -> Result<Option<NameFault>, OutOfMemory>
    ensures { IfOk result (λ f. f ≡ first_beside first (flat_map (use_faults (surroundings_of names.now) index.now defined.now entry) used.now)) }
{
    let mut found = first;
    let mut rest = used;
    while let [one, after @ ..] = rest {
        found = beside_use(alloc, names, index, defined, entry, one, found)?;
        rest = after;
    }
    Ok(found)
}

/// The first fault, beside those of a function that defines and uses these.
fn beside_all(
    alloc: Global,
    names: &Names,
    defined: &[Definition],
    entry: usize,
    used: &[Use],
    first: Option<NameFault>,
) -> Result<Option<NameFault>, OutOfMemory>
    ensures { IfOk result (λ f. f ≡ first_beside first (faults_by (surroundings_of names.now) defined.now entry used.now)) }
{
    let keys = definition_keys(alloc, names.source, defined)?;
    let index = Index::new(alloc, keys.as_slice())?;
    let own = beside_definitions(alloc, names.source, &index, defined, first)?;
    beside_uses(alloc, names, &index, defined, entry, used, own)
}

/// The first fault of a name, beside those in a function with these parameters and blocks. The first is the one whose token
/// begins first in the text. A name in a function has a fault:
///
/// - `Twice`, where an earlier parameter, block or result of the function has it, and a written number where it is below the
///   counter of those before it, which is one more than the last number;
/// - `Unknown`, at an operand that names no register, at a label that names no block, at a label that names the entry block
///   after a terminator, at the name of a function that is neither defined nor known, and at what follows `!dbg` if it isn't
///   the number of a location.
///
/// The only error is running out of memory. The time is in proportion to the function and the logarithm of its names.
pub fn beside_body(
    alloc: Global,
    names: &Names,
    parameters: &[SpelledParameter],
    blocks: &[SpelledBlock],
    first: Option<NameFault>,
) -> Result<Option<NameFault>, OutOfMemory>
    ensures { IfOk result (λ f. f ≡ first_beside first (body_faults (surroundings_of names.now) parameters.now blocks.now)) }
{
    let defined = definitions_of(alloc, names, parameters, blocks)?;
    let used = uses(alloc, names.source, names.bodies, blocks)?;
    beside_all(
        alloc,
        names,
        defined.as_slice(),
        parameters.len(),
        used.as_slice(),
        first,
    )
}
