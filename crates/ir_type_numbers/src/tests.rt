ghost use Rattle.std.specs.Prelude.{◌≡◌, ◌^◌, ◌<◌, All, IfOk, IsTrue, length};
ghost use Rattle.ir_type_numbers.specs.Numbering.{FitsModule};

use super::*;
use hw_base::OutOfMemory;
use ir_grammar::SpelledType;
use std::alloc::Global;
use std::process::Abort;
use std::test::Fail;

mod chains_of_names;
mod chains_of_types;
mod names;
mod same_types;

/// Whether the numbers of a type fit those of a module's types.
fn fits(ty: SpelledType) -> bool
    ensures { IsTrue result → FitsModule ty }
{
    match ty {
        SpelledType::Int(width) => width < 0x1_0000_0000,
        SpelledType::Array { count, .. } => count < 0x1_0000_0000_0000_0000,
        SpelledType::Struct { first, count, .. } => first < 0x1_0000_0000 && count < 0x1_0000_0000,
        _ => true,
    }
}

/// The types of a table, as far as they fit.
fn fitting(alloc: Global, table: &[SpelledType]) -> Result<Vec<SpelledType>, OutOfMemory>
    ensures { IfOk result (λ types. All FitsModule types.items) }
{
    let mut types = Vec::new(alloc);
    for ty in table {
        if fits(*ty) {
            types.push(*ty)?;
        }
    }
    Ok(types)
}

/// Numbers the types of a table that fit.
fn numbered(
    rt: &impl Abort,
    alloc: Global,
    table: &[SpelledType],
    fields: &[usize],
    leads: &[usize],
) -> Result<NumberedTypes, OutOfMemory> {
    let types = fitting(alloc, table)?;
    assert!(rt; types.len() < 0x1_0000_0000);
    number_types(alloc, &types, fields, leads)
}
