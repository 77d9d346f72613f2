//! What steps wait for, as objects.
ghost use Rattle.std.specs.Prelude.{◌≡◌, ◌++◌, IfOk, OnOk, string_bytes};
ghost use Rattle.ulfm_outcomes_list.specs.Waits.{bearer_json, bringer_json, entry_from_json, letter_from_json, need_json, wait_json};

use crate::events::{push_step_answered, push_step_head};
use std::alloc::{AllocError, Global};
use ulfm_answer::StepAnswer;
use ulfm_base::{Context, Tag};
use ulfm_forms::{push_comm, push_tag};
use ulfm_reader::Reading;
use ulfm_schedule::{Bearer, Fate, Need, Wait};

/// Puts a message of the rank `s`.
fn push_letter_from(
    text: &mut String,
    s: u8,
    tag: Option<Tag>,
    comm: Context,
) -> Result<(), AllocError>
    ensures { OnOk result (string_bytes text.new ≡ string_bytes text.old ++ letter_from_json s tag comm) }
{
    write!(text, "{{\"is\":\"message\",\"from\":{s}")?;
    push_tag(text, tag)?;
    push_comm(text, comm)?;
    text.push_str("}")
}

/// Puts the entry of the rank `s` into what is decided about a communicator.
fn push_entry_from(text: &mut String, word: &str, s: u8, comm: Context) -> Result<(), AllocError>
    ensures { OnOk result (string_bytes text.new ≡ string_bytes text.old ++ entry_from_json word.now s comm) }
{
    write!(text, "{{\"is\":\"{word}\",\"from\":{s}")?;
    push_comm(text, comm)?;
    text.push_str("}")
}

/// Puts what is waited for, of the rank `s`.
fn push_need(text: &mut String, need: Need, s: u8) -> Result<(), AllocError>
    ensures { OnOk result (string_bytes text.new ≡ string_bytes text.old ++ need_json need s) }
{
    match need {
        Need::Message(tag, comm) => push_letter_from(text, s, tag, comm),
        Need::Shrink(comm) => push_entry_from(text, "shrink", s, comm),
        Need::Agreement(comm) => push_entry_from(text, "agreement", s, comm),
    }
}

/// Puts the step `k` of the rank `s`, by what came of it.
fn push_bearer(
    text: &mut String,
    asked: &Reading,
    s: u8,
    k: usize,
    fate: &Fate,
) -> Result<(), AllocError>
    ensures { OnOk result (string_bytes text.new ≡ string_bytes text.old ++ bearer_json asked.now.names.items asked.now.job s k fate.now) }
{
    match fate {
        Fate::Answered(answer) => push_step_answered(text, asked, s, k, answer),
        Fate::Open => push_step_answered(text, asked, s, k, &StepAnswer::Unfinished),
        Fate::Unreached => {
            push_step_head(text, asked, s, k)?;
            text.push_str(",\"answer\":null")
        }
    }
}

/// Puts who would bring it: a step of the rank `s`, or none.
fn push_bringer(
    text: &mut String,
    asked: &Reading,
    s: u8,
    bearer: &Option<Bearer>,
) -> Result<(), AllocError>
    ensures { OnOk result (string_bytes text.new ≡ string_bytes text.old ++ bringer_json asked.now.names.items asked.now.job s bearer.now) }
{
    match bearer {
        Some(bearer) => {
            push_bearer(text, asked, s, bearer.step, &bearer.fate)?;
            text.push_str("}")
        }
        None => text.push_str("null"),
    }
}

/// The object of what a step waits for. A schedule that was sought gives no step up, so none of its waits has a remark.
pub(crate) fn wait_object(alloc: Global, asked: &Reading, wait: &Wait) -> Result<String, AllocError>
    ensures { IfOk result (λ text. string_bytes text ≡ wait_json asked.now.names.items asked.now.job wait.now) }
{
    let mut text = String::new(alloc);
    push_step_head(&mut text, asked, wait.rank, wait.step)?;
    text.push_str(",\"waits_for\":")?;
    push_need(&mut text, wait.need, wait.on)?;
    text.push_str(",\"brought_by\":")?;
    push_bringer(&mut text, asked, wait.on, &wait.bearer)?;
    text.push_str("}")?;
    Ok(text)
}
