ghost use Rattle.std.specs.Prelude.{◌≡◌, IfOk};
ghost use Rattle.mi_code.specs.Instrumentation.{instrumented};

use crate::code::code_of_module;
use hw_base::OutOfMemory;
use ir_check_flow::Checked;
use mi_code::Code;
use std::alloc::Global;

/// The instrumented code of a module that passed all checks: one machine instruction for each source instruction that does
/// something, with the tag work before it that belongs there, as Clang's HWAddressSanitizer adds it. The error is that memory
/// ran out.
pub fn instrument(alloc: Global, checked: &Checked) -> Result<Code, OutOfMemory>
    ensures { IfOk result (λ code. code ≡ instrumented checked.now) }
{
    code_of_module(alloc, checked.module())
}
