//! Answers as MPI has them.
ghost use Rattle.std.specs.Prelude.{◌≡◌, ◌++◌, codes, option_map, OnOk, string_bytes};
ghost use Rattle.std.specs.List.{list_all};
ghost use Rattle.ulfm_forms.specs.MpiAnswer.{printable, text_of, is_shown, mpi_acked, mpi_agreed, mpi_answer, mpi_body, mpi_class, mpi_done, mpi_other, mpi_quoted, mpi_status};

use crate::answer::push_hex;
use crate::parts::push_numbers;
use std::alloc::AllocError;
use ulfm_answer::{ToldAnswer, push_told};
use ulfm_base::CallError;

/// Puts an error class that says less than the refusal, with its number and its name.
fn push_other(text: &mut String, error: CallError) -> Result<(), AllocError>
    ensures { OnOk result (string_bytes text.new ≡ string_bytes text.old ++ mpi_other error) }
{
    write!(text, "MPI_ERR_OTHER ({error})")
}

/// Puts the error class of a refusal; where there is none that says as much, its number and its name too.
fn push_class(text: &mut String, error: CallError) -> Result<(), AllocError>
    ensures { OnOk result (string_bytes text.new ≡ string_bytes text.old ++ mpi_class error) }
{
    match error {
        CallError::NoComm => text.push_str("MPI_ERR_COMM"),
        CallError::BadRank => text.push_str("MPI_ERR_RANK"),
        CallError::BadTag => text.push_str("MPI_ERR_TAG"),
        CallError::TooLong => text.push_str("MPI_ERR_COUNT"),
        CallError::ProcFailed => text.push_str("MPIX_ERR_PROC_FAILED"),
        CallError::Revoked => text.push_str("MPIX_ERR_REVOKED"),
        CallError::NoRequest => text.push_str("MPI_ERR_REQUEST"),
        CallError::OutOfMemory => text.push_str("MPI_ERR_NO_MEM"),
        CallError::Truncated => text.push_str("MPI_ERR_TRUNCATE"),
        CallError::AlreadyMade => push_other(text, error),
        CallError::NoContext => push_other(text, error),
        CallError::Stopped => push_other(text, error),
        CallError::NotMember => push_other(text, error),
        CallError::BadSize => push_other(text, error),
        CallError::NotEntered => push_other(text, error),
    }
}

/// Whether each of these bytes is a letter, a digit or a sign of ASCII, or a space, and none is the quote that would end the text.
fn are_shown(bytes: &[u8]) -> bool
    ensures { result ≡ list_all is_shown bytes.now }
{
    bytes
        .iter()
        .all(|byte| 32 <= *byte && *byte < 127 && *byte != b'"')
}

/// A body as text, if it is UTF-8.
fn text_of(body: &[u8]) -> Option<&str>
    ensures { option_map (λ text. text.now) result ≡ text_of body.entry.now }
{
    match str::from_utf8(body) {
        Ok(text) => Some(text),
        Err(_) => None,
    }
}

/// A body as text, if it is printable: it has bytes, and all are shown.
fn printable(body: &[u8]) -> Option<&str>
    ensures { option_map (λ text. text.now) result ≡ printable body.entry.now }
{
    if !body.is_empty() && are_shown(body) {
        text_of(body)
    } else {
        None
    }
}

/// Puts a body in quotes, if it is printable text.
fn push_quoted(text: &mut String, body: &[u8]) -> Result<(), AllocError>
    ensures { OnOk result (string_bytes text.new ≡ string_bytes text.old ++ mpi_quoted body.now) }
{
    match printable(body) {
        Some(words) => write!(text, " \"{words}\""),
        None => Ok(()),
    }
}

/// Puts a body: two digits a byte, and the text that it is.
fn push_body(text: &mut String, body: &[u8]) -> Result<(), AllocError>
    ensures { OnOk result (string_bytes text.new ≡ string_bytes text.old ++ mpi_body body.now) }
{
    if body.is_empty() {
        return text.push_str("-");
    }
    push_hex(text, body)?;
    push_quoted(text, body)
}

/// Puts where a message is from, and its tag.
fn push_status(text: &mut String, source: u8, tag: u16) -> Result<(), AllocError>
    ensures { OnOk result (string_bytes text.new ≡ string_bytes text.old ++ mpi_status source tag) }
{
    write!(text, "MPI_SUCCESS, source {source}, tag {tag}")
}

/// Puts a message that came.
fn push_done(text: &mut String, source: u8, tag: u16, body: &[u8]) -> Result<(), AllocError>
    ensures { OnOk result (string_bytes text.new ≡ string_bytes text.old ++ mpi_done source tag body.now) }
{
    push_status(text, source, tag)?;
    text.push_str(", body ")?;
    push_body(text, body)
}

/// Puts that a receive was cancelled.
fn push_cancelled(text: &mut String) -> Result<(), AllocError>
    ensures { OnOk result (string_bytes text.new ≡ string_bytes text.old ++ codes "MPI_SUCCESS, cancelled") }
{
    text.push_str("MPI_SUCCESS, cancelled")
}

/// Puts how many failures are acknowledged.
fn push_acked(text: &mut String, total: u8) -> Result<(), AllocError>
    ensures { OnOk result (string_bytes text.new ≡ string_bytes text.old ++ mpi_acked total) }
{
    write!(text, "MPI_SUCCESS, acknowledged {total}")
}

/// Puts what was agreed, without these members.
fn push_agreed(text: &mut String, value: u32, missing: &[u8]) -> Result<(), AllocError>
    ensures { OnOk result (string_bytes text.new ≡ string_bytes text.old ++ mpi_agreed value missing.now) }
{
    match missing {
        [] => write!(text, "MPI_SUCCESS, flag {value}"),
        _ => {
            write!(text, "flag {value}, without ")?;
            push_numbers(text, missing)
        }
    }
}

/// Puts what the call of MPI or ULFM returns and gives, as `MPI_SUCCESS, source 0, tag 5, body 616263 "abc"`. What is no call keeps its
/// words.
///
/// # Errors
///
/// A growth was refused: a part of it may stand in the text then.
pub(crate) fn push_mpi_answer(text: &mut String, told: &ToldAnswer<'_>) -> Result<(), AllocError>
    ensures { OnOk result (string_bytes text.new ≡ string_bytes text.old ++ mpi_answer told.now) }
{
    match told {
        ToldAnswer::Sent | ToldAnswer::Posted | ToldAnswer::Revoked => text.push_str("MPI_SUCCESS"),
        ToldAnswer::Done(source, tag, body) => push_done(text, *source, *tag, body.as_slice()),
        ToldAnswer::Over(reason) | ToldAnswer::Refused(reason) => push_class(text, *reason),
        ToldAnswer::Pending => text.push_str("MPIX_ERR_PROC_FAILED_PENDING"),
        ToldAnswer::Found(source, tag, length) => {
            push_status(text, *source, *tag)?;
            write!(text, ", length {length}")
        }
        ToldAnswer::Cancelled => push_cancelled(text),
        ToldAnswer::Ranks(members) => {
            text.push_str("MPI_SUCCESS, failed ")?;
            push_numbers(text, members.as_slice())
        }
        ToldAnswer::Acked(total) => push_acked(text, *total),
        ToldAnswer::Made(comm) => write!(text, "MPI_SUCCESS, comm {comm}"),
        ToldAnswer::Shrunk(comm, members, me) => {
            write!(text, "MPI_SUCCESS, comm {comm}, ranks ")?;
            push_numbers(text, members.as_slice())?;
            write!(text, ", rank {me}")
        }
        ToldAnswer::Agreed(value, missing) => push_agreed(text, *value, missing.as_slice()),
        ToldAnswer::Noted | ToldAnswer::Stopped | ToldAnswer::Unfinished | ToldAnswer::Skipped => {
            push_told(text, told)
        }
    }
}
