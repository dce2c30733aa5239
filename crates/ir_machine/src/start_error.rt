ghost use Rattle.std.specs.Prelude.{◌≡◌};

use hw_base::{Full, OutOfMemory};
use stack_tags::EnterError;

/// Why a machine can't be made: the variables of `main` don't fit into its stack, or memory ran out.
#[derive(Clone, Copy)]
pub enum StartError {
    Full(Full),
    OutOfMemory,
}

impl From<OutOfMemory> for StartError {
    ghost use Rattle.ir_machine.specs.declared.start_error.StartError.{StartError};

    ghost from_gives = { λ _ e. e ≡ StartError.OutOfMemory };

    fn from(_error: OutOfMemory) -> StartError {
        StartError::OutOfMemory
    }
}

impl From<EnterError> for StartError {
    ghost use Rattle.ir_machine.specs.Programs.{start_error_of};

    ghost from_gives = { λ error e. e ≡ start_error_of error };

    fn from(error: EnterError) -> StartError {
        match error {
            EnterError::Full(full) => StartError::Full(full),
            EnterError::OutOfMemory => StartError::OutOfMemory,
        }
    }
}
