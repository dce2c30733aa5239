use hw_base::OutOfMemory;
use thiserror::Error;

/// Why a job that reads input and writes output returned no result. A fault comes only if the count of that port rose.
#[derive(Clone, Copy, Debug, PartialEq, Eq, Error)]
pub enum JobError {
    #[error("the input could not be read")]
    ReadFault,
    #[error("the output could not be written")]
    WriteFault,
    #[error("out of memory")]
    OutOfMemory,
}

/// Why a job that only reads input returned no result. The fault comes only if the count of that port rose.
#[derive(Clone, Copy, Debug, PartialEq, Eq, Error)]
pub enum AuditError {
    #[error("the input could not be read")]
    ReadFault,
    #[error("out of memory")]
    OutOfMemory,
}

impl From<OutOfMemory> for JobError {
    ghost use Rattle.std.specs.Prelude.{◌≡◌};
    ghost use Rattle.hw_ports.specs.declared.job_errors.JobError.TheVariants.{OutOfMemory as NoMemory};

    ghost from_gives = { λ _ e. e ≡ NoMemory };

    fn from(_: OutOfMemory) -> Self {
        JobError::OutOfMemory
    }
}

impl From<OutOfMemory> for AuditError {
    ghost use Rattle.std.specs.Prelude.{◌≡◌};
    ghost use Rattle.hw_ports.specs.declared.job_errors.AuditError.TheVariants.{OutOfMemory as NoMemory};

    ghost from_gives = { λ _ e. e ≡ NoMemory };

    fn from(_: OutOfMemory) -> Self {
        AuditError::OutOfMemory
    }
}
