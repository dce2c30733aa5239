ghost use Rattle.std.specs.Prelude.{◌≡◌, ◌++◌, take, drop, slice_get, None, IfOk};
ghost use Rattle.std.specs.Option.{option_copied};
ghost use Rattle.ir_functions.specs.Scope.{type_number, typed_row};
ghost use Rattle.ir_functions.specs.Instructions.{defined_function, declared_function, is_pthread_create, is_thread_start, named_function, start_at, start_operand, start_argument, start_of, arguments_beside, library_call, call_of};
ghost use Rattle.ir_functions.specs.Views.{scope_in};

use crate::numbers::number_of;
use crate::resolver::Resolver;
use hw_base::OutOfMemory;
use ir_core::{Declare, Lib, Op, StartArg, Token};
use ir_grammar::{SpelledConstant, SpelledOperand, TypedOperand};
use ir_names::global_key;
use std::alloc::Global;

/// A start function, by its number.
fn start_at(ty: u32, first: &Token, func: Option<u32>) -> Option<StartArg>
    ensures { result ≡ start_at ty first.now func }
{
    match func {
        None => None,
        Some(func) => Some(StartArg {
            func,
            ty,
            place: first.place,
        }),
    }
}

/// Whether the declared function starts a thread.
fn is_thread_start(declare: Option<&Declare>) -> bool
    ensures { result ≡ is_thread_start (option_copied declare.entry) }
{
    match declare {
        None => false,
        Some(declare) => matches!(declare.lib, Lib::PthreadCreate),
    }
}

/// The arguments of a call without that of the start function.
fn arguments_beside(
    alloc: Global,
    start: Option<StartArg>,
    xs: &[TypedOperand],
) -> Result<Vec<TypedOperand>, OutOfMemory>
    ensures { IfOk result (λ v. v.items ≡ arguments_beside start xs.now) }
{
    let mut kept = Vec::new(alloc);
    if start.is_some() {
        let front = xs.len().min(2);
        let behind = xs.len().min(3);
        kept.extend_from_slice(&xs[..front])?;
        kept.extend_from_slice(&xs[behind..])?;
    } else {
        kept.extend_from_slice(xs)?;
    }
    Ok(kept)
}

impl<'a, 'n, 'k, 'v, 'c> Resolver<'a, 'n, 'k, 'v, 'c> {
    /// The number of the defined function by this name.
    fn defined_function(&self, alloc: Global, name: &Token) -> Result<Option<u32>, OutOfMemory>
        ensures { IfOk result (λ n. n ≡ defined_function (scope_in self.now) name.now) }
    {
        let key = global_key(alloc, self.names.source, name)?;
        Ok(number_of(self.names.functions, key.as_slice()))
    }

    /// The number of the declared function by this name.
    fn declared_function(&self, alloc: Global, name: &Token) -> Result<Option<u32>, OutOfMemory>
        ensures { IfOk result (λ n. n ≡ declared_function (scope_in self.now) name.now) }
    {
        let key = global_key(alloc, self.names.source, name)?;
        Ok(number_of(self.names.declares, key.as_slice()))
    }

    /// The defined function that a constant names.
    fn named_function(
        &self,
        alloc: Global,
        constant: Option<SpelledConstant>,
    ) -> Result<Option<u32>, OutOfMemory>
        ensures { IfOk result (λ n. n ≡ named_function (scope_in self.now) constant) }
    {
        match constant {
            Some(SpelledConstant::Global(name)) => self.defined_function(alloc, &name),
            _ => Ok(None),
        }
    }

    /// The defined function that an argument names.
    fn start_operand(
        &self,
        alloc: Global,
        ty: u32,
        operand: &SpelledOperand,
    ) -> Result<Option<StartArg>, OutOfMemory>
        ensures { IfOk result (λ s. s ≡ start_operand (scope_in self.now) ty operand.now) }
    {
        match operand {
            SpelledOperand::Register(_) => Ok(None),
            SpelledOperand::Constant { first, number } => {
                let constant = self.values.found.constants.get(*number).copied();
                let func = self.named_function(alloc, constant)?;
                Ok(start_at(ty, first, func))
            }
        }
    }

    /// The same, with its type, if it is there.
    fn start_argument(
        &self,
        alloc: Global,
        argument: Option<TypedOperand>,
    ) -> Result<Option<StartArg>, OutOfMemory>
        ensures { IfOk result (λ s. s ≡ start_argument (scope_in self.now) argument) }
    {
        match argument {
            None => Ok(None),
            Some(x) => self.start_operand(alloc, self.type_number(x.ty), &x.value),
        }
    }

    /// The start function of a call: what its third argument names, if the call starts a thread.
    fn start_of(
        &self,
        alloc: Global,
        declare: Option<&Declare>,
        xs: &[TypedOperand],
    ) -> Result<Option<StartArg>, OutOfMemory>
        ensures { IfOk result (λ s. s ≡ start_of (scope_in self.now) (option_copied declare.entry) xs.now) }
    {
        if is_thread_start(declare) {
            self.start_argument(alloc, xs.get(2).copied())
        } else {
            Ok(None)
        }
    }

    /// A call of a declared function.
    fn library_call(
        &self,
        alloc: Global,
        declare: u32,
        result_type: u32,
        xs: &[TypedOperand],
        start: Option<StartArg>,
    ) -> Result<Op, OutOfMemory>
        ensures { IfOk result (λ o. o ≡ library_call (scope_in self.now) declare result_type xs.now start) }
    {
        let kept = arguments_beside(alloc, start, xs)?;
        let args = self.typed_row(alloc, kept.as_slice())?;
        Ok(Op::CallLib {
            declare,
            result: result_type,
            args,
            start,
        })
    }

    /// A call of a function that isn't defined.
    fn declared_call(
        &self,
        alloc: Global,
        result_type: u32,
        xs: &[TypedOperand],
        declare: Option<u32>,
    ) -> Result<Op, OutOfMemory>
        ensures { IfOk result (λ o. o ≡ call_of (scope_in self.now) result_type xs.now None declare) }
    {
        match declare {
            None => Ok(Op::Unreachable),
            Some(declare) => {
                let known = self.values.module.declares.get(declare as u64);
                let start = self.start_of(alloc, known, xs)?;
                self.library_call(alloc, declare, result_type, xs, start)
            }
        }
    }

    /// A call of the function by this name, with these arguments.
    pub(crate) fn call(
        &self,
        alloc: Global,
        name: &Token,
        result_type: u32,
        xs: &[TypedOperand],
    ) -> Result<Op, OutOfMemory>
        ensures { IfOk result (λ o. o ≡ call_of (scope_in self.now) result_type xs.now (defined_function (scope_in self.now) name.now) (declared_function (scope_in self.now) name.now)) }
    {
        match self.defined_function(alloc, name)? {
            Some(func) => Ok(Op::Call {
                func,
                result: result_type,
                args: self.typed_row(alloc, xs)?,
            }),
            None => {
                let declare = self.declared_function(alloc, name)?;
                self.declared_call(alloc, result_type, xs, declare)
            }
        }
    }
}
