//! Calls as MPI has them.
ghost use Rattle.std.specs.Prelude.{◌≡◌, ◌++◌, Some, OnOk, option_map, string_bytes};
ghost use Rattle.ulfm_job.specs.Words.{told_view};
ghost use Rattle.ulfm_forms.specs.MpiCall.{mpi_call, mpi_comm, mpi_numbered, mpi_of, mpi_on, mpi_sought, mpi_source, mpi_tag};

use std::alloc::AllocError;
use std::fmt;
use ulfm_base::{Context, Tag};
use ulfm_job::{Step, StepWords};

/// A communicator: that of all ranks by its name, each other by the name that a step calls it by, or by its number.
#[derive(Clone, Copy)]
struct MpiComm<'a>(Option<&'a str>, Context);

impl fmt::Display for MpiComm<'_> {
    ghost output = { λ comm. Some (mpi_comm (option_map (λ name. name.now) comm.0) comm.1) };

    fn fmt<W: fmt::Write>(&self, f: &mut fmt::Formatter<W>) -> fmt::Result {
        match (self.0, self.1.number) {
            (Some(name), _) => write!(f, "comm {name}"),
            (None, 0) => f.write_str("MPI_COMM_WORLD"),
            (None, number) => write!(f, "comm {number}"),
        }
    }
}

/// A source, or the wildcard.
#[derive(Clone, Copy)]
struct MpiSource(Option<u8>);

impl fmt::Display for MpiSource {
    ghost output = { λ source. Some (mpi_source source.0) };

    fn fmt<W: fmt::Write>(&self, f: &mut fmt::Formatter<W>) -> fmt::Result {
        match self.0 {
            Some(rank) => write!(f, "source {rank}"),
            None => f.write_str("MPI_ANY_SOURCE"),
        }
    }
}

/// A tag, or the wildcard.
#[derive(Clone, Copy)]
struct MpiTag(Option<Tag>);

impl fmt::Display for MpiTag {
    ghost output = { λ tag. Some (mpi_tag tag.0) };

    fn fmt<W: fmt::Write>(&self, f: &mut fmt::Formatter<W>) -> fmt::Result {
        match self.0 {
            Some(tag) => write!(f, "tag {}", tag.number),
            None => f.write_str("MPI_ANY_TAG"),
        }
    }
}

/// Puts a call of MPI that names a communicator alone.
fn push_on_comm(text: &mut String, name: &str, comm: MpiComm<'_>) -> Result<(), AllocError>
    ensures { OnOk result (string_bytes text.new ≡ string_bytes text.old ++ (name.now ++ mpi_on (option_map (λ name. name.now) comm.entry.0) comm.entry.1)) }
{
    write!(text, "{name}({comm})")
}

/// Puts a call that takes what an earlier step of the rank began: its request, or its message.
fn push_on_request(text: &mut String, name: &str, begun: &str, req: u16) -> Result<(), AllocError>
    ensures { OnOk result (string_bytes text.new ≡ string_bytes text.old ++ (name.now ++ mpi_of begun.now req)) }
{
    write!(text, "{name}({begun} of step {req})")
}

/// Puts a call that names a communicator, and a number by its name.
fn push_numbered(
    text: &mut String,
    name: &str,
    comm: MpiComm<'_>,
    key: &str,
    number: u32,
) -> Result<(), AllocError>
    ensures { OnOk result (string_bytes text.new ≡ string_bytes text.old ++ (name.now ++ mpi_numbered (option_map (λ name. name.now) comm.entry.0) comm.entry.1 key.now number)) }
{
    write!(text, "{name}({comm}, {key} {number})")
}

/// Puts a call that looks for a message.
fn push_seeking(
    text: &mut String,
    name: &str,
    from: Option<u8>,
    tag: Option<Tag>,
    comm: MpiComm<'_>,
) -> Result<(), AllocError>
    ensures { OnOk result (string_bytes text.new ≡ string_bytes text.old ++ (name.now ++ mpi_sought (option_map (λ name. name.now) comm.entry.0) from tag comm.entry.1)) }
{
    let from = MpiSource(from);
    let tag = MpiTag(tag);
    write!(text, "{name}({from}, {tag}, {comm})")
}

/// Puts the call of MPI or ULFM that a step is, as `MPI_Send(dest 1, tag 5, MPI_COMM_WORLD)`. A note and a stop keep their words.
///
/// # Errors
///
/// A growth was refused: a part of it may stand in the text then.
pub(crate) fn push_mpi_call(text: &mut String, told: StepWords<'_>) -> Result<(), AllocError>
    ensures { OnOk result (string_bytes text.new ≡ string_bytes text.old ++ mpi_call (told_view told.entry).called (told_view told.entry).step) }
{
    let called = told.called;
    match told.step {
        Step::Send { to, tag, comm, .. } => {
            let comm = MpiComm(called, *comm);
            write!(text, "MPI_Send(dest {to}, tag {}, {comm})", tag.number)
        }
        Step::Recv {
            from,
            tag,
            comm,
            ..
        } => push_seeking(text, "MPI_Irecv", *from, *tag, MpiComm(called, *comm)),
        Step::Wait { req } => push_on_request(text, "MPI_Wait", "request", *req),
        Step::Probe { from, tag, comm } => push_seeking(
            text,
            "MPI_Mprobe",
            *from,
            *tag,
            MpiComm(called, *comm),
        ),
        Step::Mrecv { req, .. } => push_on_request(text, "MPI_Mrecv", "message", *req),
        Step::Cancel { req } => push_on_request(text, "MPI_Cancel", "request", *req),
        Step::Failed { comm } => push_on_comm(text, "MPIX_Comm_get_failed", MpiComm(called, *comm)),
        Step::Ack { count, comm } => {
            push_numbered(
                text,
                "MPIX_Comm_ack_failed",
                MpiComm(called, *comm),
                "count",
                *count as u32,
            )
        }
        Step::Revoke { comm } => push_on_comm(text, "MPIX_Comm_revoke", MpiComm(called, *comm)),
        Step::Dup { comm, .. } => push_on_comm(text, "MPI_Comm_dup", MpiComm(called, *comm)),
        Step::Shrink { comm, .. } => push_on_comm(text, "MPIX_Comm_shrink", MpiComm(called, *comm)),
        Step::Agree { flag, comm } => push_numbered(
            text,
            "MPIX_Comm_agree",
            MpiComm(called, *comm),
            "flag",
            *flag,
        ),
        Step::Note { .. } | Step::Stop => write!(text, "{told}"),
    }
}
