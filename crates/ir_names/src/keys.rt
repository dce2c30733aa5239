ghost use Rattle.std.specs.Prelude.{◌≡◌, ◌∷◌, map, IfOk};
ghost use Rattle.ir_core.specs.Tokens.{bytes_of};
ghost use Rattle.ir_names.specs.Keys.{behind_sigil, type_key, global_key, node_key, list_key, item_key, item_keys, item_at, meant};
ghost use Rattle.ir_names.specs.Places.{keys_in};

use crate::index::Index;
use hw_base::OutOfMemory;
use ir_core::Token;
use ir_grammar::SpelledItem;
use ir_text::{name_key, number_behind_bang};
use std::alloc::Global;

/// The token's bytes in the text. A token that reaches past the end has only those that are there.
pub fn text_of<'a>(source: &'a [u8], token: &Token) -> &'a [u8]
    ensures { result.now ≡ bytes_of source.now token.now }
{
    let to = source.len().min(token.to as usize);
    let from = to.min(token.from as usize);
    &source[from..to]
}

/// The text behind a token's sigil, `%` or `@`.
pub fn behind_sigil<'a>(source: &'a [u8], token: &Token) -> &'a [u8]
    ensures { result.now ≡ behind_sigil source.now token.now }
{
    let text = text_of(source, token);
    match text {
        [] => text,
        [_, behind @ ..] => behind,
    }
}

/// A key of the set of names that the byte stands for.
fn key_in_set(alloc: Global, set: u8, key: &[u8]) -> Result<Vec<u8>, OutOfMemory>
    ensures { IfOk result (λ whole. whole.items ≡ set ∷ key.now) }
{
    let mut whole = Vec::new(alloc);
    whole.push(set)?;
    whole.extend_from_slice(key)?;
    Ok(whole)
}

/// The key of a type's name.
pub(crate) fn type_key(alloc: Global, source: &[u8], token: &Token) -> Result<Vec<u8>, OutOfMemory>
    ensures { IfOk result (λ key. key.items ≡ type_key source.now token.now) }
{
    let key = name_key(alloc, behind_sigil(source, token))?;
    key_in_set(alloc, b'%', key.as_slice())
}

/// The key of a global variable's or a function's name.
pub fn global_key(alloc: Global, source: &[u8], token: &Token) -> Result<Vec<u8>, OutOfMemory>
    ensures { IfOk result (λ key. key.items ≡ global_key source.now token.now) }
{
    let key = name_key(alloc, behind_sigil(source, token))?;
    key_in_set(alloc, b'@', key.as_slice())
}

fn node_key(alloc: Global, source: &[u8], token: &Token) -> Result<Vec<u8>, OutOfMemory>
    ensures { IfOk result (λ key. key.items ≡ node_key source.now token.now) }
{
    key_in_set(alloc, b'#', number_behind_bang(text_of(source, token)))
}

fn list_key(alloc: Global, source: &[u8], token: &Token) -> Result<Vec<u8>, OutOfMemory>
    ensures { IfOk result (λ key. key.items ≡ list_key source.now token.now) }
{
    key_in_set(alloc, b'!', text_of(source, token))
}

/// The key of the name that an item defines, empty where it defines none.
pub(crate) fn item_key(
    alloc: Global,
    source: &[u8],
    item: &SpelledItem,
) -> Result<Vec<u8>, OutOfMemory>
    ensures { IfOk result (λ key. key.items ≡ item_key source.now item.now) }
{
    match item {
        SpelledItem::Skipped => Ok(Vec::new(alloc)),
        SpelledItem::Type { name, .. } => type_key(alloc, source, name),
        SpelledItem::Global { name, .. } => global_key(alloc, source, name),
        SpelledItem::Used => Ok(Vec::new(alloc)),
        SpelledItem::Declare { name, .. } => global_key(alloc, source, name),
        SpelledItem::Define { name, .. } => global_key(alloc, source, name),
        SpelledItem::Node { number } => node_key(alloc, source, number),
        SpelledItem::NodeList { name } => list_key(alloc, source, name),
    }
}

/// The keys of items, one an item.
pub(crate) fn item_keys(
    alloc: Global,
    source: &[u8],
    items: &[SpelledItem],
) -> Result<Vec<Vec<u8>>, OutOfMemory>
    ensures { IfOk result (λ keys. keys_in keys.items ≡ item_keys source.now items.now) }
{
    let mut keys = Vec::new(alloc);
    let mut rest = items;
    while let [item, after @ ..] = rest {
        keys.push(item_key(alloc, source, item)?)?;
        rest = after;
    }
    Ok(keys)
}

/// The item that is meant by a key: the first that has it.
pub(crate) fn meant(index: &Index, items: &[SpelledItem], key: &[u8]) -> Option<SpelledItem>
    ensures { result ≡ meant index.now items.now key.now }
{
    match index.first_with(key) {
        None => None,
        Some(i) => items.get(i).copied(),
    }
}
