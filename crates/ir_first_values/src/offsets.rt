ghost use Rattle.std.specs.Prelude.{IfOk};
ghost use Rattle.ir_core.specs.Resolved.{HasLayouts};
ghost use Rattle.ir_core.specs.Layout.{AreFieldOffsets};
ghost use Rattle.ir_first_values.specs.Tables.{is_fitting};
ghost use Rattle.ir_first_values.specs.Offsets.{HasOffsets};
ghost use Rattle.std.specs.Prelude.{◌≡◌, true};

use hw_base::OutOfMemory;
use ir_core::Module;
use std::alloc::Global;

/// Where the fields of each struct of a module begin, in bytes after the struct's start. An index of a `getelementptr` finds
/// a field's offset here in one step.
#[derive(Drop)]
pub struct FieldOffsets {
    /// One a type: where its fields begin in the list of offsets.
    pub(crate) starts: Vec<usize>,
    /// The offsets of the fields of all structs of at most 2^40 bytes, type after type.
    pub(crate) offsets: Vec<u64>,
}

/// The offsets of the fields of one type, none if its size is above 2^40 bytes.
fn offsets_of(alloc: Global, module: &Module, ty: u32) -> Result<Vec<u64>, OutOfMemory>
    requires { HasLayouts module.now }
    ensures { IfOk result (λ own. is_fitting module.now.types module.now.fields ty ≡ true → AreFieldOffsets module.now.types module.now.fields ty own.items) }
{
    if module.fits(ty) {
        module.field_offsets(alloc, ty)
    } else {
        Ok(Vec::new(alloc))
    }
}

impl FieldOffsets {
    /// The offsets of all fields of a module's structs. The only error is that memory ran out. The time is in proportion to
    /// the types and their fields.
    pub fn new(alloc: Global, module: &Module) -> Result<FieldOffsets, OutOfMemory>
        requires { HasLayouts module.now }
        ensures { IfOk result (λ offsets. HasOffsets module.now offsets) }
    {
        let count = module.types.len().min(u32::MAX as u64) as u32;
        let mut starts = Vec::new(alloc);
        let mut offsets = Vec::new(alloc);
        for ty in 0..count {
            let own = offsets_of(alloc, module, ty)?;
            starts.push(offsets.len())?;
            offsets.extend_from_slice(own.as_slice())?;
        }
        Ok(FieldOffsets { starts, offsets })
    }
}
