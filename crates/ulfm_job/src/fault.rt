//! Why a job is refused.
ghost use Rattle.std.specs.Prelude.{◌≡◌};

use std::alloc::{AllocError, AllocFailed};
use thiserror::Error;

/// What is wrong with a table of keys.
#[derive(Clone, Copy, Debug, PartialEq, Eq, Error)]
pub enum Fault {
    /// A required key is missing, or a key has the wrong kind.
    #[error("a required key is missing, or a key has the wrong kind")]
    BadKey,
    /// A key that isn't of this table.
    #[error("a key isn't of its table")]
    UnknownKey,
    /// A number out of its range.
    #[error("a number is out of its range")]
    OutOfRange,
    /// An `op` that isn't known.
    #[error("an op isn't known")]
    UnknownOp,
}

/// Why a job is refused.
#[derive(Clone, Copy, Debug, PartialEq, Eq, Error)]
pub enum JobFault {
    /// No TOML document, or no UTF-8.
    #[error("the text is no TOML document")]
    NotToml,
    /// A fault of the job's own keys.
    #[error("{0}")]
    InJob(Fault),
    /// A fault of the step at this place in the file.
    #[error("{0} in step {1}")]
    InStep(Fault, u16),
    /// More than 256 steps, or more than 1,048,576 bytes.
    #[error("the job has too many steps or bytes")]
    TooLarge,
    /// A growth was refused.
    #[error("out of memory")]
    OutOfMemory,
}

impl<T: Drop> From<AllocFailed<T>> for JobFault {
    ghost use Rattle.std.specs.Prelude.{◌≡◌};
    ghost use Rattle.ulfm_job.specs.declared.fault.JobFault.TheVariants as refused;

    ghost from_gives = { λ _ e. e ≡ refused.OutOfMemory };

    fn from(_failed: AllocFailed<T>) -> JobFault {
        JobFault::OutOfMemory
    }
}

impl From<AllocError> for JobFault {
    ghost use Rattle.std.specs.Prelude.{◌≡◌};
    ghost use Rattle.ulfm_job.specs.declared.fault.JobFault.TheVariants as refused;

    ghost from_gives = { λ _ e. e ≡ refused.OutOfMemory };

    fn from(_error: AllocError) -> JobFault {
        JobFault::OutOfMemory
    }
}
