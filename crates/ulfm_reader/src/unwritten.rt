//! Why steps aren't written out.

use std::alloc::{AllocError, AllocFailed};
use thiserror::Error;

/// Why steps aren't written out.
#[derive(Clone, Copy, Debug, PartialEq, Eq, Error)]
pub enum Unwritten {
    /// There are more than 256 steps.
    #[error("there are more than 256 steps")]
    TooMany,
    /// A growth was refused.
    #[error("out of memory")]
    OutOfMemory,
}

impl<T: Drop> From<AllocFailed<T>> for Unwritten {
    ghost use Rattle.std.specs.Prelude.{◌≡◌};
    ghost use Rattle.ulfm_reader.specs.declared.unwritten.Unwritten.TheVariants as unwritten;

    ghost from_gives = { λ _ e. e ≡ unwritten.OutOfMemory };

    fn from(_failed: AllocFailed<T>) -> Unwritten {
        Unwritten::OutOfMemory
    }
}

impl From<AllocError> for Unwritten {
    ghost use Rattle.std.specs.Prelude.{◌≡◌};
    ghost use Rattle.ulfm_reader.specs.declared.unwritten.Unwritten.TheVariants as unwritten;

    ghost from_gives = { λ _ e. e ≡ unwritten.OutOfMemory };

    fn from(_error: AllocError) -> Unwritten {
        Unwritten::OutOfMemory
    }
}
