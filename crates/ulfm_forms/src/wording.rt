//! The words of calls and answers.

/// Whose words calls and answers are written in.
#[derive(Clone, Copy, Debug, PartialEq, Eq)]
pub enum Wording {
    /// Those of jobs, as `wait 0: over 5 ProcFailed`.
    Plain,
    /// Those of MPI and ULFM, as `MPI_Wait(request of step 0): MPIX_ERR_PROC_FAILED`.
    Mpi,
}
