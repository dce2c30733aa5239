ghost use Rattle.std.specs.Prelude.{◌≡◌};
ghost use Rattle.ir_check_types.specs.Rules.{are_types};

use crate::operands::{is_same, type_of};
use ir_core::{IrType, Module};

/// Whether types by number are these.
#[tactic(auto, using(crate::proofs::TypeLists::other_lengths))]
pub(crate) fn are_types(m: &Module, numbers: &[u32], types: &[IrType]) -> bool
    ensures { result ≡ are_types m.now numbers.now types.now }
{
    if numbers.len() != types.len() {
        return false;
    }
    for (i, ty) in types.iter().enumerate() {
        if !is_same(type_of(m, numbers[i]), *ty) {
            return false;
        }
    }
    true
}
