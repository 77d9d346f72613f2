//! Why a sweep fails.

use thiserror::Error;
use ulfm_job::JobFault;
use ulfm_script::RunFault;

/// Why a sweep fails.
#[derive(Debug, Drop, Error)]
pub enum SweepFault {
    /// The job with one more stop can't be made.
    #[error("{0}")]
    Job(JobFault),
    /// A replay failed, or its line found no memory.
    #[error("{0}")]
    Run(RunFault),
}
