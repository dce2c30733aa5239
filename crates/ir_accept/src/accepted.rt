ghost use Rattle.ir_accept.specs.Accepted.{Accepts};

use crate::typed::typed_module;
use ir_check_flow::{Checked, check};
use ir_core::ReadError;
use std::alloc::Global;

/// The module of a text of LLVM IR (LLVM Language Reference) that is accepted: it can be read, its names are resolved, no rule of
/// types or flow is broken, and no limit is exceeded. The error is that of `typed_module`; or, of a text that has none, the first
/// refusal for its flow or else the first limit, as of `ir_check_flow::check`; or that memory ran out. Line and column count from
/// 1, columns in bytes.
pub fn accept(alloc: Global, text: &[u8]) -> Result<Checked, ReadError>
    ensures { Accepts text.now result }
{
    match typed_module(alloc, text) {
        Ok(program) => check(alloc, program),
        Err(error) => Err(error),
    }
}
