//! An answer by its rank, its step, and the words with which it begins.
ghost use Rattle.std.specs.Prelude.{◌≡◌, ◌<◌, [], option_map, slice_get, slice_index_or};
ghost use Rattle.toml.specs.Data.{as_str};
ghost use Rattle.toml.specs.View.{view};
ghost use Rattle.ulfm_job.specs.Job.{lists_of};
ghost use Rattle.ulfm_reader.specs.Goals.{goal_in, trace_words};
ghost use Rattle.ulfm_reader.specs.Never.{byte_in, claim_at, claim_in, claimed, order_at, parted, place_in, step_in};
ghost use Rattle.ulfm_reader.specs.Plan.{order_of, plan_of};
ghost use Rattle.ulfm_reader.specs.inside.Reading.{claim_view, draft_view, map_ok};

use crate::beginnings::may_answer;
use crate::draft::Draft;
use crate::name::{Name, named};
use toml::Value;
use ulfm_job::{Fault, Job, Step, is_number, number_in};

/// That the answer of a step of a rank begins with these words, by whole words.
#[derive(Clone, Copy)]
pub struct Claim<'a> {
    pub rank: u8,
    pub step: u16,
    pub words: &'a str,
}

/// What stands before the first such character of a text, and what behind it.
fn parted(text: &str, at: char) -> Result<(&str, &str), Fault>
    requires { at < 128 }
    ensures { map_ok (λ parts. (parts.0.now, parts.1.now)) result ≡ parted at text.now }
{
    match text.split_once(at) {
        Some(parts) => Ok(parts),
        None => Err(Fault::OutOfRange),
    }
}

/// The number of a text of digits alone, 0 to 255.
fn byte_in(text: &str) -> Result<u8, Fault>
    ensures { result ≡ byte_in text.now }
{
    match number_in(text, 255) {
        Some(number) => Ok(number as u8),
        None => Err(Fault::OutOfRange),
    }
}

/// The number of a step of a rank, by its number or its name.
fn step_in(names: &[Name], rank: u8, text: &str) -> Result<u16, Fault>
    ensures { result ≡ step_in names.now rank text.now }
{
    if is_number(text) {
        return Ok(u16::from(byte_in(text)?));
    }
    named(names, rank, text).ok_or(Fault::OutOfRange)
}

/// A rank's steps: none where there is no such rank.
fn script_at(draft: &Draft, rank: u8) -> &[Step]
    ensures { result.now ≡ slice_index_or (lists_of draft.now.scripts.items) rank [] }
{
    match draft.scripts.get(rank as usize) {
        Some(script) => script.as_slice(),
        None => &[],
    }
}

/// A step of a rank, where there is one.
fn step_of(draft: &Draft, rank: u8, step: u16) -> Option<&Step>
    ensures { option_map (λ s. s.now) result ≡ slice_get (slice_index_or (lists_of draft.now.scripts.items) rank []) step }
{
    script_at(draft, rank).get(step as usize)
}

/// A step of a rank, by what it asks for.
fn step_at(draft: &Draft, rank: u8, step: u16) -> Option<&Step>
    ensures { option_map (λ s. order_of s.now) result ≡ order_at (draft_view draft.now).scripts rank step }
{
    step_of(draft, rank, step)
}

/// A step of a job, by what it asks for.
fn step_in_job(job: &Job, rank: u8, step: u16) -> Option<&Step>
    ensures { option_map (λ s. order_of s.now) result ≡ order_at (plan_of job.now).scripts rank step }
{
    job.step(rank, step as usize)
}

/// A rank and the number of one of its steps: a rank, a dot, and the step by its number or its name.
#[tactic(auto, unfolding(crate::specs::Never::place_in))]
fn place_in(names: &[Name], text: &str) -> Result<(u8, u16), Fault>
    ensures { result ≡ place_in names.now text.now }
{
    let (rank, step) = parted(text, '.')?;
    let rank = byte_in(rank)?;
    let step = step_in(names, rank, step)?;
    Ok((rank, step))
}

/// That the answer of a step, which may not be there, begins with words, if it may.
#[tactic(auto, unfolding(crate::specs::Never::claimed))]
fn claimed<'a>(
    found: Option<&Step>,
    rank: u8,
    step: u16,
    words: &'a str,
) -> Result<Claim<'a>, Fault>
    ensures { map_ok claim_view result ≡ claimed (option_map (λ s. order_of s.now) found.entry) rank step words.now }
{
    match found {
        Some(asked) if may_answer(asked, words) => Ok(Claim { rank, step, words }),
        _ => Err(Fault::OutOfRange),
    }
}

/// The answer that a text names: a rank, a dot, a step by its number or its name, a space, and how an answer of that step may begin.
#[tactic(auto, unfolding(crate::specs::Never::claim_in))]
fn claim_in<'a>(draft: &Draft, text: &'a str) -> Result<Claim<'a>, Fault>
    ensures { map_ok claim_view result ≡ claim_in (draft_view draft.now).scripts draft.now.names.items text.now }
{
    let (place, words) = parted(text, ' ')?;
    let (rank, step) = place_in(draft.names.as_slice(), place)?;
    claimed(step_at(draft, rank, step), rank, step, words)
}

/// The words of a trace for a step: one that never ends is unfinished.
fn trace_words(words: &str) -> &str
    ensures { result.now ≡ trace_words words.now }
{
    if words == "never ends" {
        "unfinished"
    } else {
        words
    }
}

/// The answer of a job's step that a text names, as one of a row; the step may also never end, where it may be unfinished.
#[tactic(auto, unfolding(crate::specs::Goals::goal_in))]
pub fn goal_in<'a>(job: &Job, names: &[Name], text: &'a str) -> Result<Claim<'a>, Fault>
    ensures { map_ok claim_view result ≡ goal_in (plan_of job.now).scripts names.now text.now }
{
    let (place, words) = parted(text, ' ')?;
    let (rank, step) = place_in(names, place)?;
    let claim = claimed(step_in_job(job, rank, step), rank, step, trace_words(words))?;
    Ok(Claim { words, ..claim })
}

/// The answer that a value names, where it is a text.
pub fn claim_at<'a>(draft: &Draft, value: &'a Value) -> Result<Claim<'a>, Fault>
    ensures { map_ok claim_view result ≡ claim_at (draft_view draft.now).scripts draft.now.names.items (as_str (view value.now)) }
{
    match value.as_str() {
        Some(text) => claim_in(draft, text),
        None => Err(Fault::BadKey),
    }
}
