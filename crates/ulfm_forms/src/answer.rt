//! Answers.
ghost use Rattle.std.specs.Prelude.{◌≡◌, ◌++◌, OnOk, string_bytes};
ghost use Rattle.hex.specs.Hex.{encode_lower};
ghost use Rattle.ulfm_forms.specs.Answer.{answer_json, status_json, told_json, word_text};

use crate::call::push_comm;
use crate::error::push_error;
use crate::parts::{push_group, push_numbers};
use std::alloc::AllocError;
use ulfm_answer::StepAnswer;
use ulfm_log::Status;

/// The first word of an answer.
fn word_of(answer: &StepAnswer) -> &'static str
    ensures { result.now ≡ word_text answer.now }
{
    match answer {
        StepAnswer::Sent => "sent",
        StepAnswer::Posted(_) => "posted",
        StepAnswer::Done(_, _) => "done",
        StepAnswer::Over(_) => "over",
        StepAnswer::Pending => "pending",
        StepAnswer::Found(_, _) => "found",
        StepAnswer::Cancelled => "cancelled",
        StepAnswer::Ranks(_) => "ranks",
        StepAnswer::Acked(_) => "acked",
        StepAnswer::Revoked => "revoked",
        StepAnswer::Made(_) | StepAnswer::Shrunk(_, _, _) => "comm",
        StepAnswer::Agreed(_, _) => "agreed",
        StepAnswer::Noted => "noted",
        StepAnswer::Stopped => "stopped",
        StepAnswer::Unfinished => "unfinished",
        StepAnswer::Skipped => "skipped",
        StepAnswer::Refused(_) => "refused",
    }
}

/// Where a letter is from, and its tag.
fn push_status(text: &mut String, status: Status) -> Result<(), AllocError>
    ensures { OnOk result (string_bytes text.new ≡ string_bytes text.old ++ status_json status) }
{
    write!(
        text,
        ",\"from\":{},\"tag\":{}",
        status.source, status.tag.number
    )
}

/// Two digits a byte.
pub(crate) fn push_hex(text: &mut String, bytes: &[u8]) -> Result<(), AllocError>
    ensures { OnOk result (string_bytes text.new ≡ string_bytes text.old ++ encode_lower bytes.now) }
{
    let alloc = *text.allocator();
    let digits = hex::encode(alloc, bytes)?;
    text.push_str(digits.as_str())
}

/// The keys that an answer has beside its first word.
fn push_told(text: &mut String, answer: &StepAnswer) -> Result<(), AllocError>
    ensures { OnOk result (string_bytes text.new ≡ string_bytes text.old ++ told_json answer.now) }
{
    match answer {
        StepAnswer::Done(status, body) => {
            push_status(text, *status)?;
            text.push_str(",\"body\":\"")?;
            push_hex(text, body.as_bytes())?;
            text.push_str("\"")
        }
        StepAnswer::Over(error) | StepAnswer::Refused(error) => push_error(text, *error),
        StepAnswer::Found(_, status) => {
            push_status(text, *status)?;
            write!(text, ",\"length\":{}", status.length)
        }
        StepAnswer::Ranks(members) => {
            text.push_str(",\"ranks\":")?;
            push_numbers(text, members.as_slice())
        }
        StepAnswer::Acked(total) => write!(text, ",\"total\":{total}"),
        StepAnswer::Made(comm) => push_comm(text, comm.context),
        StepAnswer::Shrunk(comm, group, me) => {
            push_comm(text, comm.context)?;
            text.push_str(",\"ranks\":")?;
            push_group(text, group)?;
            write!(text, ",\"me\":{me}")
        }
        StepAnswer::Agreed(value, missing) => {
            write!(text, ",\"value\":{value},\"without\":")?;
            push_numbers(text, missing.as_slice())
        }
        _ => Ok(()),
    }
}

/// An answer.
pub(crate) fn push_answer(text: &mut String, answer: &StepAnswer) -> Result<(), AllocError>
    ensures { OnOk result (string_bytes text.new ≡ string_bytes text.old ++ answer_json answer.now) }
{
    let word = word_of(answer);
    write!(text, "{{\"is\":\"{word}\"")?;
    push_told(text, answer)?;
    text.push_str("}")
}
