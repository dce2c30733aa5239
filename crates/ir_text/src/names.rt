ghost use Rattle.std.specs.Prelude.{◌≡◌, drop, IfOk};
ghost use Rattle.std.specs.List.{list_all};
ghost use Rattle.std.specs.Char.{is_ascii_digit};
ghost use Rattle.std.specs.Str.{bytes_eq};
ghost use Rattle.ir_text.specs.TokenText.{between_quotes, string_bytes_of, name_bytes, label_name};
ghost use Rattle.ir_text.specs.Names.{name_key, global_name, is_used_list, is_constructor_list, is_debug_function};

use crate::escapes::{unescape, unescapes_to};
use crate::numbers::significant;
use hw_base::{ByteList, OutOfMemory};
use std::alloc::Global;

/// What stands between the first byte and the last.
fn between_quotes(bytes: &[u8]) -> &[u8]
    ensures { result.now ≡ between_quotes bytes.now }
{
    match bytes {
        [] => bytes,
        [_] => &bytes[1..],
        [_, inner @ .., _] => inner,
    }
}

/// The bytes that a string stands for, given with its quotes (LLVM Language Reference, "Identifiers"). The only error is
/// want of memory.
pub fn string_bytes(alloc: Global, bytes: &[u8]) -> Result<ByteList, OutOfMemory>
    ensures { IfOk result (λ out. out ≡ string_bytes_of bytes.now) }
{
    unescape(alloc, between_quotes(bytes))
}

/// The bytes of a name, given without its `%` or `@`: its own, or those that a string stands for. The only error is want of
/// memory.
pub fn name_bytes(alloc: Global, bytes: &[u8]) -> Result<ByteList, OutOfMemory>
    ensures { IfOk result (λ out. out ≡ name_bytes bytes.now) }
{
    match bytes {
        [b'"', ..] => string_bytes(alloc, bytes),
        _ => {
            let mut out = Vec::new(alloc);
            out.extend_from_slice(bytes)?;
            Ok(ByteList::from_vec(out))
        }
    }
}

fn is_all_digits(bytes: &[u8]) -> bool
    ensures { result ≡ list_all is_ascii_digit bytes.now }
{
    bytes.iter().all(|b| b.is_ascii_digit())
}

/// What two names, given without their `%` or `@`, share exactly where they are one name: `%01` is `%1`, and `%"a"` is `%a`,
/// but `%"1"` isn't `%1`. The only error is want of memory.
pub fn name_key(alloc: Global, bytes: &[u8]) -> Result<Vec<u8>, OutOfMemory>
    ensures { IfOk result (λ key. key.items ≡ name_key bytes.now) }
{
    let mut key = Vec::new(alloc);
    if is_all_digits(bytes) {
        key.extend_from_slice(significant(bytes))?;
    } else {
        let name = name_bytes(alloc, bytes)?;
        key.push(b'"')?;
        key.extend_from_slice(name.as_slice())?;
    }
    Ok(key)
}

fn is_name(bytes: &[u8], name: &[u8]) -> bool
    ensures { result ≡ bytes_eq (name_bytes bytes.now) name.now }
{
    match bytes {
        [] => name.is_empty(),
        [b, ..] => {
            if *b == b'"' {
                unescapes_to(between_quotes(bytes), name)
            } else {
                bytes == name
            }
        }
    }
}

/// Whether a label, given with its `:`, gives this name.
pub fn is_label_of(bytes: &[u8], name: &[u8]) -> bool
    ensures { result ≡ bytes_eq (label_name bytes.now) name.now }
{
    let end = bytes.len().saturating_sub(1);
    is_name(&bytes[..end], name)
}

fn is_global_named(bytes: &[u8], name: &[u8]) -> bool
    ensures { result ≡ bytes_eq (global_name bytes.now) name.now }
{
    match bytes {
        [] => is_name(bytes, name),
        [_, behind @ ..] => is_name(behind, name),
    }
}

/// Whether a global's name, given with its `@`, is `llvm.used` or `llvm.compiler.used` (LLVM Language Reference, "Intrinsic
/// Global Variables"), quoted or not.
pub fn is_used_list(bytes: &[u8]) -> bool
    ensures { result ≡ is_used_list bytes.now }
{
    is_global_named(bytes, b"llvm.used".as_slice())
        || is_global_named(bytes, b"llvm.compiler.used".as_slice())
}

/// Whether a global's name, given with its `@`, is `llvm.global_ctors` (LLVM Language Reference, "Intrinsic Global
/// Variables"), quoted or not.
pub fn is_constructor_list(bytes: &[u8]) -> bool
    ensures { result ≡ is_constructor_list bytes.now }
{
    is_global_named(bytes, b"llvm.global_ctors".as_slice())
}

/// What stands behind the first byte.
fn behind_first(bytes: &[u8]) -> &[u8]
    ensures { result.now ≡ drop 1 bytes.now }
{
    match bytes {
        [] => bytes,
        [_, behind @ ..] => behind,
    }
}

/// Whether a global's name, given with its `@`, begins with `llvm.dbg.`, as those of the functions that describe variables
/// to a debugger do (LLVM Language Reference, "Debugger intrinsics"), quoted or not. The only error is running out of
/// memory.
pub fn is_debug_function(alloc: Global, bytes: &[u8]) -> Result<bool, OutOfMemory>
    ensures { IfOk result (λ found. found ≡ is_debug_function bytes.now) }
{
    let name = name_bytes(alloc, behind_first(bytes))?;
    Ok(name.as_slice().starts_with(b"llvm.dbg.".as_slice()))
}
