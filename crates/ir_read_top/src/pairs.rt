ghost use Rattle.std.specs.Prelude.{◌≡◌, take, drop, slice_get};
ghost use Rattle.ir_read_top.specs.Module.{pair_width, pair_by, pair_of, set_pair, with_pair, with_pairs, with_call, with_calls};

use ir_core::{IrType, Lib};
use ir_grammar::{SpelledInstruction, SpelledItem, SpelledOperation, SpelledType};

/// The width in bits of the first of an integer and an i1.
fn pair_width(first: Option<IrType>, second: Option<IrType>) -> Option<u32>
    ensures { result ≡ pair_width first second }
{
    match first {
        Some(IrType::Int(width)) => match second {
            Some(IrType::Int(bit)) => { if bit == 1 { Some(width) } else { None } }
            _ => None,
        },
        _ => None,
    }
}

/// The same of the types with two numbers.
fn pair_by(types: &[IrType], fields: &[u32]) -> Option<u32>
    ensures { result ≡ pair_by types.now fields.now }
{
    match fields {
        [first, second] => pair_width(
            types.get(*first as usize).copied(),
            types.get(*second as usize).copied(),
        ),
        _ => None,
    }
}

/// The numbers from `first` on, at most so many.
fn fields_from(fields: &[u32], first: usize, count: usize) -> &[u32]
    ensures { result.now ≡ take count (drop first fields.now) }
{
    let from = fields.len().min(first);
    let rest = &fields[from..];
    let to = rest.len().min(count);
    &rest[..to]
}

/// The width of the integer in a literal, unpacked struct of an integer and an i1.
fn pair_of(types: &[IrType], fields: &[u32], spelled: Option<SpelledType>) -> Option<u32>
    ensures { result ≡ pair_of types.now fields.now spelled }
{
    match spelled {
        Some(
            SpelledType::Struct {
                first,
                count,
                packed,
            },
        ) => {
            if packed {
                None
            } else {
                pair_by(types, fields_from(fields, first, count))
            }
        }
        _ => None,
    }
}

/// Makes a type a pair, if there is a width.
fn set_pair(types: &mut [IrType], n: usize, width: Option<u32>)
    ensures { types.new ≡ set_pair types.old n width }
{
    if let Some(width) = width {
        if n < types.len() {
            types[n] = IrType::Pair(width);
        }
    }
}

/// Makes the result of an item a pair, if it declares an intrinsic with overflow.
fn with_pair(
    spelled: &[SpelledType],
    fields: &[u32],
    types: &mut [IrType],
    item: &SpelledItem,
    lib: Option<Lib>,
)
    ensures { types.new ≡ with_pair spelled.now fields.now types.old item.now lib }
{
    let Some(Lib::Overflow { .. }) = lib else {
        return;
    };
    match item {
        SpelledItem::Declare { result, .. } => {
            let width = pair_of(types, fields, spelled.get(*result).copied());
            set_pair(types, *result, width);
        }
        _ => {}
    }
}

/// Makes the results of declared intrinsics with overflow pairs. `libs` has one entry an item.
pub(crate) fn with_pairs(
    spelled: &[SpelledType],
    fields: &[u32],
    types: &mut [IrType],
    items: &[SpelledItem],
    libs: &[Option<Lib>],
)
    ensures { types.new ≡ with_pairs spelled.now fields.now types.old items.now libs.now }
{
    let mut rest = items;
    let mut functions = libs;
    while let [item, after @ ..] = rest {
        let [lib, others @ ..] = functions else {
            return;
        };
        with_pair(spelled, fields, types, item, *lib);
        rest = after;
        functions = others;
    }
}

/// Makes the result of a call a pair, if it is spelled as a literal, unpacked struct of an integer and an i1.
fn with_call(
    spelled: &[SpelledType],
    fields: &[u32],
    types: &mut [IrType],
    operation: &SpelledOperation,
)
    ensures { types.new ≡ with_call spelled.now fields.now types.old operation.now }
{
    match operation {
        SpelledOperation::Call { result, .. } => {
            let width = pair_of(types, fields, spelled.get(*result).copied());
            set_pair(types, *result, width);
        }
        _ => {}
    }
}

/// Makes the results of calls pairs that are spelled so.
pub(crate) fn with_calls(
    spelled: &[SpelledType],
    fields: &[u32],
    types: &mut [IrType],
    instructions: &[SpelledInstruction],
)
    ensures { types.new ≡ with_calls spelled.now fields.now types.old instructions.now }
{
    let mut rest = instructions;
    while let [instruction, after @ ..] = rest {
        with_call(spelled, fields, types, &instruction.operation);
        rest = after;
    }
}
