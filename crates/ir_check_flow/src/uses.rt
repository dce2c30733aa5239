ghost use Rattle.std.specs.Prelude.{IfOk};
ghost use Rattle.ir_core.specs.ResolvedBodies.{IsResolvedFunction};
ghost use Rattle.ir_check_flow.specs.First.{IsFirstOf};
ghost use Rattle.ir_check_flow.specs.Flow.{IsUndefinedUse};

use crate::answering::open_fault;
use crate::questions::questions_of;
use crate::ways::ways_of;
use hw_base::OutOfMemory;
use ir_core::{Function, Module, Refusal};
use std::alloc::Global;

/// The first use of a register in a function to which some path comes without a definition. The only error is that memory ran
/// out.
pub(crate) fn undefined_use(
    alloc: Global,
    m: &Module,
    f: &Function,
) -> Result<Option<Refusal>, OutOfMemory>
    requires { IsResolvedFunction m.now f.now }
    ensures { IfOk result (λ found. IsFirstOf (IsUndefinedUse f.now) found) }
{
    let ways = ways_of(alloc, f)?;
    let questions = questions_of(alloc, f)?;
    let found = open_fault(alloc, &ways, &questions)?;
    Ok(found)
}
