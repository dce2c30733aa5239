ghost use Rattle.std.specs.Prelude.{◌≡◌, ◌++◌, map, IfOk, OnOk};
ghost use Rattle.std.specs.List.{range_with_len};
ghost use Rattle.ir_core.specs.declared.types.IrType.TheVariants.{Int as Integer, Pair as Both};
ghost use Rattle.ir_functions.specs.Given.{given_types};

use hw_base::OutOfMemory;
use ir_core::IrType;
use std::alloc::Global;

/// The integers of 1 to 128 bits.
fn integers(alloc: Global) -> Result<Vec<IrType>, OutOfMemory>
    ensures { IfOk result (λ types. types.items ≡ map Integer (range_with_len 1 128)) }
{
    let types = (1u32..129).map(|width| IrType::Int(width)).collect(alloc)?;
    Ok(types)
}

/// The pairs of each of these and an `i1`.
fn pairs(alloc: Global) -> Result<Vec<IrType>, OutOfMemory>
    ensures { IfOk result (λ types. types.items ≡ map Both (range_with_len 1 128)) }
{
    let types = (1u32..129).map(|width| IrType::Pair(width)).collect(alloc)?;
    Ok(types)
}

/// Adds the types of values whose type isn't spelled.
pub(crate) fn add_given_types(alloc: Global, types: &mut Vec<IrType>) -> Result<(), OutOfMemory>
    ensures { OnOk result (types.new.items ≡ types.old.items ++ given_types) }
{
    let mut given = vec![in alloc; IrType::Ptr, IrType::Void]?;
    given.extend_from_slice(&integers(alloc)?)?;
    given.extend_from_slice(&pairs(alloc)?)?;
    types.extend_from_slice(&given)?;
    Ok(())
}
