ghost use Rattle.std.specs.Prelude.{◌≡◌, IfOk};
ghost use Rattle.ir_core.specs.ResolvedBodies.{IsResolved};
ghost use Rattle.ir_core.specs.Scopes.{HasEndingScopes};
ghost use Rattle.ir_accept.specs.Typed.{IsTyped};

use ir_check_types::check_types;
use ir_core::{Module, ReadError};
use ir_read_top::read;
use std::alloc::Global;

/// The module of a text of LLVM IR (LLVM Language Reference, "Type System" and "Instruction Reference") in which no rule of
/// types is broken. The error is that of reading, as of `ir_read_top::read`; or, of a text that can be read, the first fault
/// of its types, as of `ir_check_types::check_types`; or that memory ran out. Line and column count from 1, columns in bytes.
pub fn typed_module(alloc: Global, text: &[u8]) -> Result<Module, ReadError>
    ensures typed { IsTyped text.now result }
    ensures resolved { IfOk result IsResolved }
    ensures scopes { IfOk result HasEndingScopes }
{
    let program = read(alloc, text)?;
    match check_types(&program) {
        Ok(()) => Ok(program),
        Err(refusal) => Err(ReadError::Refused(refusal)),
    }
}
