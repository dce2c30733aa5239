ghost use Rattle.std.specs.Prelude.{IfOk};
ghost use Rattle.ir_core.specs.ResolvedBodies.{IsResolvedFunction, IsResolved};
ghost use Rattle.ir_check_flow.specs.Check.{IsFlowFaultOf, IsFlowFault, IsFlowCheck};
ghost use Rattle.ir_check_flow.specs.First.{IsFirstOf};

use crate::bad_phis::bad_phi;
use crate::uses::undefined_use;
use hw_base::OutOfMemory;
use ir_check_types::earlier;
use ir_core::{Function, Module, ReadError, Refusal};
use std::alloc::Global;

/// The first refusal for the flow of a function.
fn function_flow(alloc: Global, m: &Module, f: &Function) -> Result<Option<Refusal>, OutOfMemory>
    requires { IsResolvedFunction m.now f.now }
    ensures { IfOk result (λ found. IsFirstOf (IsFlowFaultOf f.now) found) }
{
    let undefined = undefined_use(alloc, m, f)?;
    let bad = bad_phi(alloc, m, f)?;
    Ok(earlier(undefined, bad))
}

/// The first refusal for the flow of all functions.
fn flow_fault(alloc: Global, m: &Module) -> Result<Option<Refusal>, OutOfMemory>
    requires { IsResolved m.now }
    ensures { IfOk result (λ found. IsFirstOf (IsFlowFault m.now) found) }
{
    let mut first = None;
    for f in m.functions.as_slice() {
        let found = function_flow(alloc, m, f)?;
        first = earlier(first, found);
    }
    Ok(first)
}

/// Checks the flow of a module whose names are resolved: that each use of a register is after its definition on every path from
/// the entry block, that of an entry of a phi on every path to the end of the entry's block; and that each phi is among the
/// first instructions of its block, which isn't the entry block, with an entry for each block that leads there, for no other
/// one, and with one value for each. Blocks to which no path leads count too. The error is the first refusal in the text,
/// `NotOnEveryPath` at the operand or `BadPhi` at the phi's first token, or that memory ran out.
pub fn check_flow(alloc: Global, module: &Module) -> Result<(), ReadError>
    requires { IsResolved module.now }
    ensures { IsFlowCheck module.now result }
{
    match flow_fault(alloc, module)? {
        None => Ok(()),
        Some(refusal) => Err(ReadError::Refused(refusal)),
    }
}
