ghost use Rattle.std.specs.Prelude.{◌≡◌, None};
ghost use Rattle.ir_core.specs.ResolvedBodies.{IsResolved};
ghost use Rattle.ir_core.specs.Scopes.{HasEndingScopes};
ghost use Rattle.ir_check_types.specs.Rules.{type_fault};
ghost use Rattle.ir_check_flow.specs.Checked.{IsCheck};

use crate::flow::check_flow;
use crate::limits::limit_fault;
use ir_core::{Module, ReadError};
use std::alloc::Global;
use std::marker::Model;

/// A module that passed all checks. Contracts see it as the module.
#[derive(Drop)]
pub struct Checked {
    module: Module,
}

impl Model for Checked {
    ghost use Rattle.ir_core.specs.declared.ir_module.Module.{Module};
    ghost use Rattle.ir_check_flow.specs.Checked.{IsChecked};

    ghost Value = { Module };

    ghost view = { λ c. c.module };

    ghost invariant = { λ c. IsChecked c.module };
}

impl Checked {
    ghost use Rattle.ir_check_flow.specs.Checked.{IsChecked};

    /// The module: its names are resolved, its debug locations end, no rule of types or flow is broken, no limit is exceeded,
    /// and so it has all that a run needs.
    pub fn module(&self) -> &Module
        ensures value { result.now ≡ self.now }
        ensures checked { IsChecked self.now }
    {
        &self.module
    }
}

/// Checks the flow of a module whose names are resolved, whose debug locations end, and in which no type rule is broken, and then
/// its limits: at most 4,096 functions, 16,384 blocks and 262,144 instructions a function, 1,048,576 metadata nodes, 16,777,200
/// bytes of global variables in their rounded sizes, and 2^40 bytes of a type or a variable. The error is the first refusal for
/// the flow, as of `check_flow`; else `TooLarge` with the first limit that is exceeded: at the name of the first function too
/// many, of the function, or of the first variable with which the sum is too large, and at 1:1 for nodes and types; or that
/// memory ran out. After an error the module is dropped.
pub fn check(alloc: Global, m: Module) -> Result<Checked, ReadError>
    requires resolved { IsResolved m }
    requires scopes { HasEndingScopes m }
    requires types { type_fault m ≡ None }
    ensures { IsCheck m result }
{
    match check_flow(alloc, &m) {
        Err(error) => Err(error),
        Ok(()) => match limit_fault(&m) {
            None => Ok(Checked { module: m }),
            Some(refusal) => Err(ReadError::Refused(refusal)),
        },
    }
}
