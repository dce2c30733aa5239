ghost use Rattle.std.specs.Prelude.{◌≡◌, IfOk};
ghost use Rattle.ir_core.specs.declared.refusals.ReadError.TheVariants.{OutOfMemory as NoMemory};
ghost use Rattle.ir_core.specs.Refusals.{refused_line};

use crate::Fault;
use hw_base::{ByteList, OutOfMemory};
use std::alloc::{AllocError, AllocFailed, Global};

/// A place in the text: line and column, both counted from 1. Columns count bytes, and LF alone ends a line.
#[derive(Clone, Copy, Debug, PartialEq, Eq)]
pub struct Place {
    pub line: u32,
    pub column: u32,
}

/// Why a text is refused, and where: line and column from 1, columns in bytes.
#[derive(Clone, Copy, Debug, PartialEq, Eq)]
pub struct Refusal {
    pub fault: Fault,
    pub line: u32,
    pub column: u32,
}

impl Refusal {
    /// The line that says so, with its LF: the code and the name of the fault, and the place.
    pub fn text(&self, alloc: Global) -> Result<ByteList, OutOfMemory>
        ensures { IfOk result (λ text. text ≡ refused_line self.now) }
    {
        let (fault, line, column) = (self.fault, self.line, self.column);
        let number = fault.number();
        let text = format!(in alloc; "refused: {number} {fault} at {line}:{column}\n")?;
        Ok(ByteList::from_vec(text.into_bytes()))
    }
}

/// Why a text could not be read.
#[derive(Clone, Copy, Debug, PartialEq, Eq)]
pub enum ReadError {
    /// The text isn't accepted.
    Refused(Refusal),
    OutOfMemory,
}

impl From<OutOfMemory> for ReadError {
    ghost from_gives = { λ _ e. e ≡ NoMemory };

    fn from(_: OutOfMemory) -> Self {
        ReadError::OutOfMemory
    }
}

impl From<AllocError> for ReadError {
    ghost from_gives = { λ _ e. e ≡ NoMemory };

    fn from(_: AllocError) -> Self {
        ReadError::OutOfMemory
    }
}

impl<T: Drop> From<AllocFailed<T>> for ReadError {
    ghost from_gives = { λ _ e. e ≡ NoMemory };

    fn from(_: AllocFailed<T>) -> Self {
        ReadError::OutOfMemory
    }
}
