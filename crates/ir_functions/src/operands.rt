ghost use Rattle.std.specs.Prelude.{◌≡◌, ◌<◌, ◌^◌, map, slice_get, IfOk, OnOk, ◌++◌};
ghost use Rattle.ir_core.specs.Tokens.{bytes_of};
ghost use Rattle.ir_body_names.specs.BodyFaults.{local_place};
ghost use Rattle.ir_functions.specs.Scope.{spelled_types, type_number, number_by, local_number, placed_constant, placed, typed, phi_entry, switch_case};
ghost use Rattle.ir_functions.specs.Instructions.{token_bytes};
ghost use Rattle.ir_functions.specs.Views.{scope_in};

use crate::resolver::Resolver;
use hw_base::OutOfMemory;
use ir_body_names::local_place;
use ir_core::{Case, Operand, PhiEntry, Place, Placed, Token};
use ir_grammar::{SpelledCase, SpelledIncoming, SpelledOperand, TypedOperand};
use ir_names::text_of;
use std::alloc::Global;

/// The number of the definition at a place, 0 if there is none.
fn number_by(numbers: &[u32], place: Option<usize>) -> u32
    ensures { result ≡ number_by numbers.now place }
{
    match place {
        None => 0,
        Some(place) => match numbers.get(place) {
            None => 0,
            Some(number) => *number,
        },
    }
}

/// A constant that fits its type, or one that doesn't.
fn placed_constant(ty: u32, place: Place, operand: Option<Operand>) -> Placed
    ensures { result ≡ placed_constant ty place operand }
{
    match operand {
        None => Placed {
            operand: Operand::Null,
            ty,
            fits: false,
            place,
        },
        Some(operand) => Placed {
            operand,
            ty,
            fits: true,
            place,
        },
    }
}

impl<'a, 'n, 'k, 'v, 'c> Resolver<'a, 'n, 'k, 'v, 'c> {
    /// The bytes of a token.
    pub(crate) fn token_bytes(&self, token: &Token) -> &[u8]
        ensures { result.now ≡ token_bytes (scope_in self.now) token.now }
    {
        text_of(self.names.source, token)
    }

    /// The number of the type that a spelled type stands for.
    pub(crate) fn type_number(&self, ty: usize) -> u32
        ensures { result ≡ type_number (scope_in self.now) ty }
    {
        match self.values.numbers.get(ty) {
            None => 0,
            Some(number) => *number,
        }
    }

    /// The number of the register or block that a local names.
    pub(crate) fn local_number(&self, alloc: Global, name: &Token) -> Result<u32, OutOfMemory>
        ensures { IfOk result (λ n. n ≡ local_number (scope_in self.now) name.now) }
    {
        let place = local_place(alloc, self.names.source, self.index, name)?;
        Ok(number_by(self.numbers, place))
    }

    /// An operand of a type of the module.
    pub(crate) fn placed(
        &self,
        alloc: Global,
        ty: u32,
        operand: &SpelledOperand,
    ) -> Result<Placed, OutOfMemory>
        ensures { IfOk result (λ p. p ≡ placed (scope_in self.now) ty operand.now) }
    {
        match operand {
            SpelledOperand::Register(name) => {
                let register = self.local_number(alloc, name)?;
                Ok(Placed {
                    operand: Operand::Reg(register),
                    ty,
                    fits: true,
                    place: name.place,
                })
            }
            SpelledOperand::Constant { first, number } => {
                let operand = self.values.operand(ty, *number);
                Ok(placed_constant(ty, first.place, operand))
            }
        }
    }

    /// An operand with its spelled type.
    pub(crate) fn typed(&self, alloc: Global, x: &TypedOperand) -> Result<Placed, OutOfMemory>
        ensures { IfOk result (λ p. p ≡ typed (scope_in self.now) x.now) }
    {
        self.placed(alloc, self.type_number(x.ty), &x.value)
    }

    /// An entry of a phi of a type.
    pub(crate) fn phi_entry(
        &self,
        alloc: Global,
        ty: u32,
        x: &SpelledIncoming,
    ) -> Result<PhiEntry, OutOfMemory>
        ensures { IfOk result (λ e. e ≡ phi_entry (scope_in self.now) ty x.now) }
    {
        Ok(PhiEntry {
            value: self.placed(alloc, ty, &x.value)?,
            block: self.local_number(alloc, &x.block)?,
        })
    }

    /// A case of a switch.
    pub(crate) fn switch_case(&self, alloc: Global, x: &SpelledCase) -> Result<Case, OutOfMemory>
        ensures { IfOk result (λ c. c ≡ switch_case (scope_in self.now) x.now) }
    {
        Ok(Case {
            value: self.typed(alloc, &x.value)?,
            block: self.local_number(alloc, &x.block)?,
        })
    }
}
