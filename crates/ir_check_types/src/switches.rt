ghost use Rattle.std.specs.Prelude.{◌≡◌, []};
ghost use Rattle.ir_check_types.specs.Instructions.{is_same_number, is_taken, case_fault, cases_fault, switch_fault};

use crate::operands::{constant_number, integer_fault, type_of, typed_fault};
use crate::order::{earlier, unless};
use ir_core::{Case, Fault, Function, IrType, Module, Operand, Placed, Refusal};

fn is_same_number(a: Operand, b: Operand) -> bool
    ensures { result ≡ is_same_number a b }
{
    constant_number(a) == constant_number(b)
}

/// Whether a case before has the same number.
fn is_taken(before: &[Case], case: &Case) -> bool
    ensures { result ≡ is_taken before.now case.now }
{
    let operand = case.value.operand;
    before
        .iter()
        .any(|other| is_same_number(other.value.operand, operand))
}

/// A case is a constant of the type with a number that none before has.
fn case_fault(m: &Module, f: &Function, ty: IrType, before: &[Case], case: &Case) -> Option<Refusal>
    ensures { result ≡ case_fault m.now f.now ty before.now case.now }
{
    let alone = unless(!is_taken(before, case), Fault::BadType, case.value.place);
    earlier(typed_fault(m, f, ty, &case.value), alone)
}

/// The cases of a switch. The time grows with the square of how many there are.
fn cases_fault(m: &Module, f: &Function, ty: IrType, cases: &[Case]) -> Option<Refusal>
    ensures { result ≡ cases_fault m.now f.now ty [] cases.now }
{
    let mut so_far = None;
    for (i, case) in cases.iter().enumerate() {
        so_far = earlier(so_far, case_fault(m, f, ty, &cases[..i], case));
    }
    so_far
}

/// An integer, and cases of its type.
pub(crate) fn switch_fault(m: &Module, f: &Function, on: &Placed, cases: &[Case]) -> Option<Refusal>
    ensures { result ≡ switch_fault m.now f.now on.now cases.now }
{
    earlier(
        integer_fault(m, f, on),
        cases_fault(m, f, type_of(m, on.ty), cases),
    )
}
