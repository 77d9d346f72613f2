//! Why a run fails.
ghost use Rattle.std.specs.Prelude.{◌≡◌};

use crate::report::RankReport;
use std::alloc::AllocFailed;
use thiserror::Error;

/// Why a run fails.
#[derive(Debug, Drop, Error)]
pub enum RunFault {
    /// The number of ends or of deciders isn't that of the ranks, or an end stands at another place than its number.
    #[error("the ends or deciders don't fit the job")]
    BadEnds,
    /// A thread could not be started.
    #[error("a thread could not be started")]
    NoThread,
    /// A growth was refused outside the polls of steps.
    #[error("out of memory")]
    OutOfMemory,
    /// A rank adopted a decision that lists a rank with another set or flag than those with which that rank entered, or that
    /// excludes a rank that didn't stop. Or a step was refused since the decision isn't one for its rank to adopt (11). Or a rank took
    /// notice of a revocation that no rank's own call made. Or what the ranks did has no one order, in which each item is sent before it
    /// is taken, and each decision proposed before it is adopted. What they did shows it. Whether rings of the job's places allow it is
    /// looked at later, of a report (`fits` of `ulfm_run`): where they don't, the program answers as with this.
    #[error("a decision or a revocation isn't true of what the ranks did")]
    Untrue(Vec<RankReport>),
}

impl<T: Drop> From<AllocFailed<T>> for RunFault {
    ghost use Rattle.std.specs.Prelude.{◌≡◌};
    ghost use Rattle.ulfm_script.specs.declared.fault.RunFault.TheVariants as failed;

    ghost from_gives = { λ _ e. e ≡ failed.OutOfMemory };

    fn from(_failed: AllocFailed<T>) -> RunFault {
        RunFault::OutOfMemory
    }
}
