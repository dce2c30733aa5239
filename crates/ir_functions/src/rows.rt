ghost use Rattle.std.specs.Prelude.{◌≡◌, map, IfOk};
ghost use Rattle.ir_functions.specs.Scope.{typed, typed_row, phi_entry, switch_case};
ghost use Rattle.ir_functions.specs.Views.{scope_in};

use crate::resolver::Resolver;
use hw_base::OutOfMemory;
use ir_core::{CaseList, PhiEntryList, PlacedList};
use ir_grammar::{SpelledCase, SpelledIncoming, TypedOperand};
use std::alloc::Global;

impl<'a, 'n, 'k, 'v, 'c> Resolver<'a, 'n, 'k, 'v, 'c> {
    /// Operands with their spelled types.
    pub(crate) fn typed_row(
        &self,
        alloc: Global,
        xs: &[TypedOperand],
    ) -> Result<PlacedList, OutOfMemory>
        ensures { IfOk result (λ row. row ≡ typed_row (scope_in self.now) xs.now) }
    {
        let mut row = PlacedList::new(alloc);
        let mut rest = xs;
        while let [x, after @ ..] = rest {
            row.push(self.typed(alloc, x)?)?;
            rest = after;
        }
        Ok(row)
    }

    /// The entries of a phi of a type.
    pub(crate) fn phi_entries(
        &self,
        alloc: Global,
        ty: u32,
        xs: &[SpelledIncoming],
    ) -> Result<PhiEntryList, OutOfMemory>
        ensures { IfOk result (λ row. row ≡ map (phi_entry (scope_in self.now) ty) xs.now) }
    {
        let mut row = PhiEntryList::new(alloc);
        let mut rest = xs;
        while let [x, after @ ..] = rest {
            row.push(self.phi_entry(alloc, ty, x)?)?;
            rest = after;
        }
        Ok(row)
    }

    /// The cases of a switch.
    pub(crate) fn switch_cases(
        &self,
        alloc: Global,
        xs: &[SpelledCase],
    ) -> Result<CaseList, OutOfMemory>
        ensures { IfOk result (λ row. row ≡ map (switch_case (scope_in self.now)) xs.now) }
    {
        let mut row = CaseList::new(alloc);
        let mut rest = xs;
        while let [x, after @ ..] = rest {
            row.push(self.switch_case(alloc, x)?)?;
            rest = after;
        }
        Ok(row)
    }
}
