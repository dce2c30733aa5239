ghost use Rattle.std.specs.Prelude.{◌≡◌, ◌≢◌, ℕ, ◌<◌, ◌+◌, ◌++◌, ◌∷◌, [], List, map, length, All, IfOk, IsTrue, IsFalse, ◌↔◌, Some, slice_index_or};
ghost use Rattle.ir_core.specs.Progress.{type_at};
ghost use Rattle.ir_type_numbers.specs.declared.letter.Letter.{Letter};
ghost use Rattle.ir_type_numbers.specs.declared.letter.Letter.TheVariants.{Part};
ghost use Rattle.ir_type_numbers.specs.Numbering.{number_at};
ghost use Rattle.ir_type_numbers.specs.SameTypes.{is_named, HasLayout, IsSame};
ghost use Rattle.ir_core.specs.Holding.{held};
ghost use Rattle.ir_type_numbers.specs.Shapes.{word_number, IsNumbering, Keeps, kind, part_letter, shape, shape_at, IsClassed, unclassed, IsClassing, IsClosedAt, IsClosed};
ghost use Rattle.ir_type_numbers.specs.WordMap.{longer_in};

use crate::letter::Letter;
use crate::word_numbers::WordNumbers;
use hw_base::OutOfMemory;
use ir_core::{IrType, TypeIdList, TypeList, field_types, inner_first};
use std::alloc::Global;

/// One class a type: two types that have layouts are one exactly where their classes are equal. `named` has one mark a
/// type, whether it is the body of a named type's definition. The class of a type that has no layout, since it holds
/// itself, is 0, and stands for no type. The time is near proportion to the types and what they hold.
pub fn classes(
    alloc: Global,
    types: &TypeList,
    fields: &TypeIdList,
    named: &[bool],
) -> Result<Vec<u64>, OutOfMemory>
    ensures each { IfOk result (λ classes. length classes.items ≡ length types.now) }
    ensures some { IfOk result (λ classes. (a : ℕ) → number_at classes.items a ≢ 0 ↔ HasLayout types.now fields.now a) }
    ensures same { IfOk result (λ classes. (a b : ℕ) → HasLayout types.now fields.now a → HasLayout types.now fields.now b
        → (number_at classes.items a ≡ number_at classes.items b) ↔ IsSame types.now fields.now named.now a b) }
{
    let types = types.as_slice();
    let fields = fields.as_slice();
    let order = inner_first(alloc, types, fields)?;
    let mut words = WordNumbers::new(alloc);
    let mut classes = vec![in alloc; 0; types.len()]?;
    class_all(types, fields, named, &order, &mut words, &mut classes)?;
    Ok(classes)
}

/// The class at a number in a list, 0 past its end.
fn class_at(classes: &[u64], n: usize) -> u64
    ensures { result ≡ number_at classes.now n }
{
    match classes.get(n) {
        Some(class) => *class,
        None => 0,
    }
}

/// Whether the type with a number is marked as the body of a named type.
fn is_named(named: &[bool], n: usize) -> bool
    ensures { result ≡ is_named named.now n }
{
    match named.get(n) {
        Some(mark) => *mark,
        None => false,
    }
}

/// The letter of a type without its parts.
fn kind(named: bool, own: u64, ty: IrType) -> Letter
    ensures { result ≡ kind named own ty }
{
    match ty {
        IrType::Void => Letter::Void,
        IrType::Ptr => Letter::Ptr,
        IrType::Int(width) => Letter::Int(width),
        IrType::Pair(width) => Letter::Pair(width),
        IrType::Array { count, .. } => Letter::Array(count),
        IrType::Struct { packed, .. } => {
            if named {
                Letter::Own(own)
            } else {
                Letter::Struct(packed)
            }
        }
        IrType::Opaque => Letter::Own(own),
    }
}

/// Whether all of these have classes.
fn all_classed(classes: &[u64], parts: &[u32]) -> bool
    ensures yes { IsTrue result → All (IsClassed classes.now) parts.now }
    ensures no { IsFalse result → All (IsClassed classes.now) parts.now → ⊥ }
{
    for part in parts {
        if class_at(classes, *part as usize) == 0 {
            return false;
        }
    }
    true
}

/// Whether all that a type holds has classes.
fn are_parts_classed(fields: &[u32], classes: &[u64], ty: IrType) -> bool
    ensures yes { IsTrue result → All (IsClassed classes.now) (held fields.now ty) }
    ensures no { IsFalse result → All (IsClassed classes.now) (held fields.now ty) → ⊥ }
{
    match ty {
        IrType::Array { item, .. } => all_classed(classes, &[item]),
        IrType::Struct { first, count, .. } => all_classed(
            classes,
            field_types(fields, first, count),
        ),
        _ => true,
    }
}

/// The number of a word with the letters of these parts before it.
fn with_parts(
    words: &mut WordNumbers,
    classes: &[u64],
    parts: &[u32],
    word: u64,
) -> Result<u64, OutOfMemory>
    requires { IsNumbering (longer_in words.old) }
    ensures found { IfOk result (λ number. (letters : List Letter) → word_number (longer_in words.old) letters ≡ Some word
        → word_number (longer_in words.new) (map (part_letter classes.now) parts.now ++ letters) ≡ Some number) }
    ensures kept { IfOk result (λ _. Keeps (longer_in words.old) (longer_in words.new)) }
    ensures numbering { IfOk result (λ _. IsNumbering (longer_in words.new)) }
{
    let mut number = word;
    for done in 0..parts.len() {
        let part = parts[parts.len() - 1 - done];
        number = words.longer(number, Letter::Part(class_at(classes, part as usize)))?;
    }
    Ok(number)
}

/// The number of a type's shape.
fn class_of(
    words: &mut WordNumbers,
    fields: &[u32],
    classes: &[u64],
    named: bool,
    own: u64,
    ty: IrType,
) -> Result<u64, OutOfMemory>
    requires { IsNumbering (longer_in words.old) }
    ensures found { IfOk result (λ class. word_number (longer_in words.new) (shape fields.now classes.now named own ty) ≡ Some class) }
    ensures kept { IfOk result (λ _. Keeps (longer_in words.old) (longer_in words.new)) }
    ensures numbering { IfOk result (λ _. IsNumbering (longer_in words.new)) }
{
    let word = words.longer(0, kind(named, own, ty))?;
    match ty {
        IrType::Array { item, .. } => with_parts(words, classes, &[item], word),
        IrType::Struct { first, count, .. } => {
            with_parts(words, classes, field_types(fields, first, count), word)
        }
        _ => Ok(word),
    }
}

/// Gives a type its class, if it has none yet and all that it holds has. Whether it did.
fn class_one(
    types: &[IrType],
    fields: &[u32],
    named: &[bool],
    words: &mut WordNumbers,
    classes: &mut [u64],
    n: usize,
) -> Result<bool, OutOfMemory>
    requires classing { IsClassing types.now fields.now named.now (longer_in words.old) classes.old }
    requires within { n < length types.now }
    ensures classing { IfOk result (λ _. IsClassing types.now fields.now named.now (longer_in words.new) classes.new) }
    ensures fewer { IfOk result (λ did. IsTrue did → unclassed classes.new < unclassed classes.old) }
    ensures same { IfOk result (λ did. IsFalse did → classes.new ≡ classes.old) }
    ensures closed { IfOk result (λ did. IsFalse did → IsClosedAt types.now fields.now classes.old n) }
{
    let ty = types[n];
    if class_at(classes, n) != 0 || !are_parts_classed(fields, classes, ty) {
        return Ok(false);
    }
    classes[n] = class_of(words, fields, classes, is_named(named, n), n as u64, ty)?;
    Ok(true)
}

/// Tries each type once, in this order.
fn class_in_order(
    types: &[IrType],
    fields: &[u32],
    named: &[bool],
    order: &[u32],
    words: &mut WordNumbers,
    classes: &mut [u64],
) -> Result<(), OutOfMemory>
    requires { IsClassing types.now fields.now named.now (longer_in words.old) classes.old }
    ensures { IfOk result (λ _. IsClassing types.now fields.now named.now (longer_in words.new) classes.new) }
{
    for n in order {
        let n = *n as usize;
        if n < types.len() {
            class_one(types, fields, named, words, classes, n)?;
        }
    }
    Ok(())
}

/// Tries each type once. Whether any got a class.
fn class_once(
    types: &[IrType],
    fields: &[u32],
    named: &[bool],
    words: &mut WordNumbers,
    classes: &mut [u64],
) -> Result<bool, OutOfMemory>
    requires { IsClassing types.now fields.now named.now (longer_in words.old) classes.old }
    ensures classing { IfOk result (λ _. IsClassing types.now fields.now named.now (longer_in words.new) classes.new) }
    ensures fewer { IfOk result (λ did. IsTrue did → unclassed classes.new < unclassed classes.old) }
    ensures closed { IfOk result (λ did. IsFalse did → IsClosed types.now fields.now classes.new) }
{
    let mut did = false;
    for n in 0..types.len() {
        if class_one(types, fields, named, words, classes, n)? {
            did = true;
        }
    }
    Ok(did)
}

/// Tries all types, first in this order, until none can get a class any more.
fn class_all(
    types: &[IrType],
    fields: &[u32],
    named: &[bool],
    order: &[u32],
    words: &mut WordNumbers,
    classes: &mut [u64],
) -> Result<(), OutOfMemory>
    requires { IsClassing types.now fields.now named.now (longer_in words.old) classes.old }
    ensures classing { IfOk result (λ _. IsClassing types.now fields.now named.now (longer_in words.new) classes.new) }
    ensures closed { IfOk result (λ _. IsClosed types.now fields.now classes.new) }
{
    class_in_order(types, fields, named, order, words, classes)?;
    while class_once(types, fields, named, words, classes)? {}
    Ok(())
}
