ghost use Rattle.std.specs.Prelude.{◌≡◌, ◌≤◌};

use crate::same_types::are_types;
use ir_core::{IrType, Module};

/// The types of up to four parameters: the first `count` of these.
#[derive(Clone, Copy)]
pub(crate) struct Parameters {
    pub types: [IrType; 4],
    pub count: usize,
    ghost few: { count ≤ 4 },
}

impl Parameters {
    ghost use Rattle.std.specs.Prelude.{[], ◌∷◌};
    ghost use Rattle.ir_check_types.specs.Listed.{listed};
    ghost use Rattle.ir_check_types.specs.Rules.{are_types};

    pub(crate) fn none() -> Parameters
        ensures { listed result ≡ [] }
    {
        Parameters {
            types: [IrType::Ptr; 4],
            count: 0,
        }
    }

    pub(crate) fn one(a: IrType) -> Parameters
        ensures { listed result ≡ a ∷ [] }
    {
        Parameters {
            types: [a, IrType::Ptr, IrType::Ptr, IrType::Ptr],
            count: 1,
        }
    }

    pub(crate) fn two(a: IrType, b: IrType) -> Parameters
        ensures { listed result ≡ a ∷ b ∷ [] }
    {
        Parameters {
            types: [a, b, IrType::Ptr, IrType::Ptr],
            count: 2,
        }
    }

    pub(crate) fn three(a: IrType, b: IrType, c: IrType) -> Parameters
        ensures { listed result ≡ a ∷ b ∷ c ∷ [] }
    {
        Parameters {
            types: [a, b, c, IrType::Ptr],
            count: 3,
        }
    }

    pub(crate) fn four(a: IrType, b: IrType, c: IrType, d: IrType) -> Parameters
        ensures { listed result ≡ a ∷ b ∷ c ∷ d ∷ [] }
    {
        Parameters {
            types: [a, b, c, d],
            count: 4,
        }
    }

    /// Whether types by number are these.
    pub(crate) fn are(&self, m: &Module, numbers: &[u32]) -> bool
        ensures { result ≡ are_types m.now numbers.now (listed self.now) }
    {
        are_types(m, numbers, &self.types[..self.count])
    }
}
