ghost use Rattle.std.specs.Prelude.{◌≡◌};
ghost use Rattle.ir_grammar.specs.declared.terminal.Failure.TheVariants.{OutOfMemory as NoMemory};

use crate::Kind;
use ir_core::{Fault, Token};
use std::alloc::{AllocError, AllocFailed};

/// A token as the grammar sees it: its kind, and the number that it spells, without a sign. The number is that of an
/// integer's digits, or the width in bits of an integer type, and 0 for any other token.
#[derive(Clone, Copy, Debug, PartialEq, Eq)]
pub struct Terminal {
    pub kind: Kind,
    pub number: u128,
    pub token: Token,
}

/// The fault of a text against the grammar: `left` counts the tokens from the fault on, and is 0 at the end of the text.
#[derive(Clone, Copy, Debug, PartialEq, Eq)]
pub struct Flaw {
    pub fault: Fault,
    pub left: usize,
}

/// Why nothing was read.
#[derive(Clone, Copy, Debug, PartialEq, Eq)]
pub enum Failure {
    /// The text isn't of the grammar.
    Flawed(Flaw),
    OutOfMemory,
}

impl From<AllocError> for Failure {
    ghost from_gives = { λ _ e. e ≡ NoMemory };

    fn from(_: AllocError) -> Self {
        Failure::OutOfMemory
    }
}

impl<T: Drop> From<AllocFailed<T>> for Failure {
    ghost from_gives = { λ _ e. e ≡ NoMemory };

    fn from(_: AllocFailed<T>) -> Self {
        Failure::OutOfMemory
    }
}
