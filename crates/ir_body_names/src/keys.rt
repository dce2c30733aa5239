ghost use Rattle.std.specs.Prelude.{◌≡◌, IfOk};
ghost use Rattle.ir_names.specs.Places.{keys_in};
ghost use Rattle.ir_body_names.specs.Definitions.{written, definition_key, counter_after_name, counter_after, definition_keys};

use crate::counters::{low_digits, next, reversed};
use crate::definitions::Definition;
use hw_base::OutOfMemory;
use ir_core::Token;
use ir_names::{behind_sigil, is_number, text_of};
use ir_text::name_key;
use std::alloc::Global;

/// What is written of a name: a label without its colon, a local without its `%`.
pub(crate) fn written<'a>(source: &'a [u8], is_block: bool, token: &Token) -> &'a [u8]
    ensures { result.now ≡ written source.now is_block token.now }
{
    if is_block {
        let text = text_of(source, token);
        &text[..text.len().saturating_sub(1)]
    } else {
        behind_sigil(source, token)
    }
}

/// The key of a definition's name; without a name it is that of the counter.
fn definition_key(
    alloc: Global,
    source: &[u8],
    counter: &[u8],
    definition: &Definition,
) -> Result<Vec<u8>, OutOfMemory>
    ensures { IfOk result (λ key. key.items ≡ definition_key source.now counter.now definition.now.is_block definition.now.name) }
{
    match definition.name {
        None => reversed(alloc, counter),
        Some(token) => name_key(alloc, written(source, definition.is_block, &token)),
    }
}

/// The counter after a name.
fn counter_after_name(alloc: Global, counter: Vec<u8>, text: &[u8]) -> Result<Vec<u8>, OutOfMemory>
    ensures { IfOk result (λ after. after.items ≡ counter_after_name counter.items text.now) }
{
    if is_number(text) {
        let digits = low_digits(alloc, text)?;
        next(alloc, digits.as_slice())
    } else {
        Ok(counter)
    }
}

/// The counter after a definition.
pub(crate) fn counter_after(
    alloc: Global,
    source: &[u8],
    counter: Vec<u8>,
    definition: &Definition,
) -> Result<Vec<u8>, OutOfMemory>
    ensures { IfOk result (λ after. after.items ≡ counter_after source.now counter.items definition.now.is_block definition.now.name) }
{
    match definition.name {
        None => next(alloc, counter.as_slice()),
        Some(token) => {
            counter_after_name(alloc, counter, written(source, definition.is_block, &token))
        }
    }
}

/// The keys of all that a function defines, in order of the text. The only error is running out of memory.
pub fn definition_keys(
    alloc: Global,
    source: &[u8],
    defined: &[Definition],
) -> Result<Vec<Vec<u8>>, OutOfMemory>
    ensures { IfOk result (λ keys. keys_in keys.items ≡ definition_keys source.now defined.now) }
{
    let mut keys = Vec::new(alloc);
    let mut counter = Vec::new(alloc);
    let mut rest = defined;
    while let [definition, after @ ..] = rest {
        keys.push(definition_key(alloc, source, counter.as_slice(), definition)?)?;
        counter = counter_after(alloc, source, counter, definition)?;
        rest = after;
    }
    Ok(keys)
}
