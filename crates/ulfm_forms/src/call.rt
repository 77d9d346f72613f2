//! What a step asks for.
ghost use Rattle.std.specs.Prelude.{◌≡◌, ◌++◌, OnOk, option_map, string_bytes};
ghost use Rattle.ulfm_job.specs.Words.{told_view};
ghost use Rattle.ulfm_forms.specs.Call.{again_json, call_json, called_json, comm_json, from_json, keys_json, sought_json, tag_json};

use std::alloc::AllocError;
use ulfm_base::{Context, Tag};
use ulfm_job::{Step, StepWords};

/// The key of a source, where any is `null`.
fn push_from(text: &mut String, from: Option<u8>) -> Result<(), AllocError>
    ensures { OnOk result (string_bytes text.new ≡ string_bytes text.old ++ from_json from) }
{
    match from {
        Some(rank) => write!(text, ",\"from\":{rank}"),
        None => text.push_str(",\"from\":null"),
    }
}

/// The key of a tag, where any is `null`.
pub fn push_tag(text: &mut String, tag: Option<Tag>) -> Result<(), AllocError>
    ensures { OnOk result (string_bytes text.new ≡ string_bytes text.old ++ tag_json tag) }
{
    match tag {
        Some(tag) => write!(text, ",\"tag\":{}", tag.number),
        None => text.push_str(",\"tag\":null"),
    }
}

/// The key of a communicator.
pub fn push_comm(text: &mut String, comm: Context) -> Result<(), AllocError>
    ensures { OnOk result (string_bytes text.new ≡ string_bytes text.old ++ comm_json comm) }
{
    write!(text, ",\"comm\":{}", comm.number)
}

/// The key of a communicator that is called by a name, or by its number.
fn push_called(text: &mut String, called: Option<&str>, comm: Context) -> Result<(), AllocError>
    ensures { OnOk result (string_bytes text.new ≡ string_bytes text.old ++ called_json (option_map (λ name. name.now) called.entry) comm) }
{
    match called {
        Some(name) => write!(text, ",\"comm\":\"{name}\""),
        None => push_comm(text, comm),
    }
}

/// The key of a step that asks for a further communicator, or nothing.
fn push_again(text: &mut String, again: bool) -> Result<(), AllocError>
    ensures { OnOk result (string_bytes text.new ≡ string_bytes text.old ++ again_json again) }
{
    if again {
        text.push_str(",\"again\":true")
    } else {
        Ok(())
    }
}

/// The keys of what is sought: a source, a tag, and a communicator.
fn push_sought(
    text: &mut String,
    called: Option<&str>,
    from: Option<u8>,
    tag: Option<Tag>,
    comm: Context,
) -> Result<(), AllocError>
    ensures { OnOk result (string_bytes text.new ≡ string_bytes text.old ++ sought_json (option_map (λ name. name.now) called.entry) from tag comm) }
{
    push_from(text, from)?;
    push_tag(text, tag)?;
    push_called(text, called, comm)
}

/// The keys that a step has beside its op.
fn push_keys(text: &mut String, told: StepWords<'_>) -> Result<(), AllocError>
    ensures { OnOk result (string_bytes text.new ≡ string_bytes text.old ++ keys_json (told_view told.entry).called (told_view told.entry).step) }
{
    let called = told.called;
    match told.step {
        Step::Send { to, tag, comm, .. } => {
            write!(text, ",\"to\":{to},\"tag\":{}", tag.number)?;
            push_called(text, called, *comm)
        }
        Step::Recv {
            from,
            tag,
            comm,
            ..
        }
        | Step::Probe { from, tag, comm } => push_sought(text, called, *from, *tag, *comm),
        Step::Wait { req } | Step::Mrecv { req, .. } | Step::Cancel { req } => {
            write!(text, ",\"req\":{req}")
        }
        Step::Ack { count, comm } => {
            write!(text, ",\"count\":{count}")?;
            push_called(text, called, *comm)
        }
        Step::Agree { flag, comm } => {
            write!(text, ",\"flag\":{flag}")?;
            push_called(text, called, *comm)
        }
        Step::Failed { comm } | Step::Revoke { comm } => push_called(text, called, *comm),
        Step::Dup { comm, again } | Step::Shrink { comm, again } => {
            push_called(text, called, *comm)?;
            push_again(text, *again)
        }
        Step::Note { text: label } => {
            let label = label.as_str();
            write!(text, ",\"text\":\"{label}\"")
        }
        Step::Stop => Ok(()),
    }
}

/// The keys of a step: its op, and what the words of the step have.
pub(crate) fn push_call(text: &mut String, told: StepWords<'_>) -> Result<(), AllocError>
    ensures { OnOk result (string_bytes text.new ≡ string_bytes text.old ++ call_json (told_view told.entry)) }
{
    let op = told.step.op().name();
    write!(text, "\"op\":\"{op}\"")?;
    push_keys(text, told)
}
