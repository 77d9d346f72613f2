//! What ranks do in a schedule, as objects.
ghost use Rattle.std.specs.Prelude.{◌≡◌, ◌++◌, IfOk, OnOk, string_bytes};
ghost use Rattle.ulfm_job.specs.Words.{told_at};
ghost use Rattle.ulfm_forms.specs.Trace.{answered_json, head_json};
ghost use Rattle.ulfm_outcomes_list.specs.Events.{cargo_json, deed_json, done_json, kind_json, left_json, letter_json, message_json, move_json, opened_json, took_json};

use std::alloc::{AllocError, Global};
use ulfm_answer::StepAnswer;
use ulfm_base::{Context, Tag};
use ulfm_forms::{push_answered, push_comm, push_head};
use ulfm_reader::Reading;
use ulfm_schedule::{Cargo, Deed, Move};

/// Puts a message.
fn push_letter(text: &mut String, tag: Tag, length: usize, comm: Context) -> Result<(), AllocError>
    ensures { OnOk result (string_bytes text.new ≡ string_bytes text.old ++ letter_json tag length comm) }
{
    let tag = tag.number;
    write!(
        text,
        "{{\"is\":\"message\",\"tag\":{tag},\"length\":{length}"
    )?;
    push_comm(text, comm)?;
    text.push_str("}")
}

/// Puts what else is told of a communicator.
fn push_kind(text: &mut String, word: &str, comm: Context) -> Result<(), AllocError>
    ensures { OnOk result (string_bytes text.new ≡ string_bytes text.old ++ kind_json word.now comm) }
{
    write!(text, "{{\"is\":\"{word}\"")?;
    push_comm(text, comm)?;
    text.push_str("}")
}

/// Puts what an item brings.
fn push_cargo(text: &mut String, cargo: Cargo) -> Result<(), AllocError>
    ensures { OnOk result (string_bytes text.new ≡ string_bytes text.old ++ cargo_json cargo) }
{
    match cargo {
        Cargo::Message(tag, length, comm) => push_letter(text, tag, length, comm),
        Cargo::Notice => text.push_str("{\"is\":\"notice\"}"),
        Cargo::Revocation(comm) => push_kind(text, "revocation", comm),
        Cargo::Shrink(comm) => push_kind(text, "shrink", comm),
        Cargo::Agreement(comm) => push_kind(text, "agreement", comm),
    }
}

/// Puts an item that leaves the rank `r` for `d`.
fn push_left(text: &mut String, r: u8, d: u8, cargo: Cargo) -> Result<(), AllocError>
    ensures { OnOk result (string_bytes text.new ≡ string_bytes text.old ++ left_json r d cargo) }
{
    write!(
        text,
        "{{\"rank\":{r},\"event\":\"left\",\"to\":{d},\"item\":"
    )?;
    push_cargo(text, cargo)
}

/// Puts an item of the rank `s` that `r` takes.
fn push_took(text: &mut String, r: u8, s: u8, cargo: Cargo) -> Result<(), AllocError>
    ensures { OnOk result (string_bytes text.new ≡ string_bytes text.old ++ took_json r s cargo) }
{
    write!(
        text,
        "{{\"rank\":{r},\"event\":\"took\",\"from\":{s},\"item\":"
    )?;
    push_cargo(text, cargo)
}

/// Begins the object of the step `k` of the rank `r`.
pub(crate) fn push_step_head(
    text: &mut String,
    asked: &Reading,
    r: u8,
    k: usize,
) -> Result<(), AllocError>
    ensures { OnOk result (string_bytes text.new ≡ string_bytes text.old ++ head_json asked.now.names.items r k (told_at asked.now.job r k)) }
{
    let names = asked.names.as_slice();
    push_head(text, names, r, k, asked.job.told(r, k))
}

/// Begins the object of the step `k` of the rank `r` with its answer, but for the end of the object.
pub(crate) fn push_step_answered(
    text: &mut String,
    asked: &Reading,
    r: u8,
    k: usize,
    answer: &StepAnswer,
) -> Result<(), AllocError>
    ensures { OnOk result (string_bytes text.new ≡ string_bytes text.old ++ answered_json asked.now.names.items r k (told_at asked.now.job r k) answer.now) }
{
    let names = asked.names.as_slice();
    push_answered(text, names, r, k, asked.job.told(r, k), answer)
}

/// Puts the step `k` of the rank `r`, which is opened.
fn push_opened(text: &mut String, asked: &Reading, r: u8, k: usize) -> Result<(), AllocError>
    ensures { OnOk result (string_bytes text.new ≡ string_bytes text.old ++ opened_json asked.now.names.items asked.now.job r k) }
{
    push_step_head(text, asked, r, k)?;
    text.push_str(",\"event\":\"opened\"")?;
    Ok(())
}

/// Puts the step `k` of the rank `r`, which has this answer.
fn push_done(
    text: &mut String,
    asked: &Reading,
    r: u8,
    k: usize,
    answer: &StepAnswer,
) -> Result<(), AllocError>
    ensures { OnOk result (string_bytes text.new ≡ string_bytes text.old ++ done_json asked.now.names.items asked.now.job r k answer.now) }
{
    push_step_answered(text, asked, r, k, answer)?;
    text.push_str(",\"event\":\"answered\"")
}

/// Puts what the rank `r` does, but for the end of the object.
fn push_deed(text: &mut String, asked: &Reading, r: u8, deed: &Deed) -> Result<(), AllocError>
    ensures { OnOk result (string_bytes text.new ≡ string_bytes text.old ++ deed_json asked.now.names.items asked.now.job r deed.now) }
{
    match deed {
        Deed::Left(d, cargo) => push_left(text, r, *d, *cargo),
        Deed::Took(s, cargo) => push_took(text, r, *s, *cargo),
        Deed::Opened(k, _) => push_opened(text, asked, r, *k),
        Deed::Answered(k, report) => push_done(text, asked, r, *k, &report.answer),
    }
}

/// Puts the key of the message that is taken, or that a step got.
fn push_message(text: &mut String, message: Option<usize>) -> Result<(), AllocError>
    ensures { OnOk result (string_bytes text.new ≡ string_bytes text.old ++ message_json message) }
{
    match message {
        Some(number) => write!(text, ",\"message\":{number}"),
        None => Ok(()),
    }
}

/// The object of a move.
pub(crate) fn move_object(
    alloc: Global,
    asked: &Reading,
    moved: &Move,
) -> Result<String, AllocError>
    ensures { IfOk result (λ text. string_bytes text ≡ move_json asked.now.names.items asked.now.job moved.now) }
{
    let mut text = String::new(alloc);
    push_deed(&mut text, asked, moved.rank, &moved.deed)?;
    push_message(&mut text, moved.message)?;
    text.push_str("}")?;
    Ok(text)
}
