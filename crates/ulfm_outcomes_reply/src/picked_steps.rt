//! The steps whose lines a list has.
ghost use Rattle.std.specs.Prelude.{◌≡◌, ◌==◌, ◌++◌, ◌∷◌, [], if◌then◌else◌, not, IfOk, OnOk, filter, map, option_map, string_bytes};
ghost use Rattle.std.specs.List.{find, flat_map, list_any, slice_split};
ghost use Rattle.std.specs.Str.{trim};
ghost use Rattle.ulfm_forms.specs.declared.form.Form.{Form as Written};
ghost use Rattle.ulfm_outcomes_list.specs.Listed.{list_view, step_view};
ghost use Rattle.ulfm_outcomes_list.specs.ListJson.{printed};
ghost use Rattle.ulfm_command_line.specs.Body.{body_in};
ghost use Rattle.ulfm_command_line.specs.Stopped.{asked_view};
ghost use Rattle.ulfm_command_line.specs.Unknown.{no_name};
ghost use Rattle.ulfm_command_line.specs.Wish.{choice_view};
ghost use Rattle.ulfm_outcomes_reply.specs.Chosen.{are_called, chosen, is_all, is_called, is_chosen, is_note, is_part, labels, named_labels, parts_of, unknown_part, unnumbered};

use crate::search::Search;
use std::alloc::{AllocError, Global};
use ulfm_command_line::{Body, Choice, JOB_REFUSED, Reply};
use ulfm_job::{Place, Step};
use ulfm_outcomes_list::{JobStep, StepList, push_list, steps_of};
use ulfm_reader::{Name, Reading, name_at};

/// The steps whose lines are asked for.
pub(crate) fn chosen<'a, F>(
    search: &Search<'_, F>,
    asked: &'a Reading,
) -> Result<Vec<JobStep<'a>>, AllocError>
    ensures { IfOk result (λ steps. map step_view steps.items ≡ chosen (choice_view search.now.choice) (asked_view asked.now)) }
{
    let parts = parts_of(search.alloc, search.choice.only)?;
    let steps = steps_of(search.alloc, &asked.job)?;
    let names = asked.names.as_slice();
    kept(
        search.alloc,
        search.choice,
        parts.as_slice(),
        names,
        steps.as_slice(),
    )
}

/// What is said in place of a list where a part of `--only` names no step of the job: the first such part.
pub(crate) fn unknown_part<'a, F>(
    search: &Search<'a, F>,
    asked: &Reading,
) -> Result<Option<&'a str>, AllocError>
    ensures { IfOk result (λ part. option_map (λ p. p.now) part ≡ unknown_part (choice_view search.now.choice) (asked_view asked.now)) }
{
    let parts = parts_of(search.alloc, search.choice.only)?;
    let steps = steps_of(search.alloc, &asked.job)?;
    let labels = labels_of(search.alloc, asked.names.as_slice(), steps.as_slice())?;
    Ok(first_unknown(parts.as_slice(), labels.as_slice()))
}

/// The reply to a part of `--only` that names no step of the job.
pub(crate) fn no_name(alloc: Global, part: &str) -> Result<Reply, AllocError>
    ensures { IfOk result (λ r. (r.status ≡ 1) × ((form : Written) → body_in form r.body ≡ no_name (trim part.now))) }
{
    Ok(Reply {
        status: JOB_REFUSED,
        body: Body::NoName(String::from_str(alloc, part.trim())?),
        remarks: None,
    })
}

/// The text of a list, in the form that is asked for.
pub(crate) fn printed<F>(
    search: &Search<'_, F>,
    asked: &Reading,
    list: &StepList<'_>,
) -> Result<String, AllocError>
    ensures { IfOk result (λ text. string_bytes text ≡ printed search.now.form asked.now.names.items (list_view list.now)) }
{
    let mut text = String::new(search.alloc);
    push_list(&mut text, search.form, asked.names.as_slice(), list)?;
    Ok(text)
}

/// The parts of a text between commas, if there is one.
fn parts_of<'a>(alloc: Global, only: Option<&'a str>) -> Result<Vec<&'a str>, AllocError>
    ensures { IfOk result (λ parts. map (λ p. p.now) parts.items ≡ parts_of (option_map (λ s. s.now) only.entry)) }
{
    match only {
        Some(text) => split(alloc, text),
        None => Ok(Vec::new(alloc)),
    }
}

/// The parts of a text between commas.
fn split<'a>(alloc: Global, text: &'a str) -> Result<Vec<&'a str>, AllocError>
    ensures { IfOk result (λ parts. map (λ p. p.now) parts.items ≡ slice_split (λ b. b == 44) text.now) }
{
    text.split(',').collect(alloc)
}

/// Those of these steps that are asked for.
fn kept<'a>(
    alloc: Global,
    choice: Choice<'_>,
    parts: &[&str],
    names: &[Name],
    steps: &[JobStep<'a>],
) -> Result<Vec<JobStep<'a>>, AllocError>
    ensures { IfOk result (λ kept. map step_view kept.items ≡ filter (is_chosen (choice_view choice.entry) (map (λ p. p.now) parts.now) names.now) (map step_view steps.now)) }
{
    let mut kept = Vec::new(alloc);
    for at in steps {
        let is = is_chosen(alloc, choice, parts, names, at)?;
        push_if(&mut kept, at, is)?;
    }
    Ok(kept)
}

/// Puts a step behind others, if it is to be there.
fn push_if<'a>(kept: &mut Vec<JobStep<'a>>, at: &JobStep<'a>, is: bool) -> Result<(), AllocError>
    ensures { OnOk result (map step_view kept.new.items ≡ map step_view kept.old.items ++ (if is then step_view at.now ∷ [] else [])) }
{
    if is {
        kept.push(*at)?;
    }
    Ok(())
}

/// Whether the line of a step is asked for.
fn is_chosen(
    alloc: Global,
    choice: Choice<'_>,
    parts: &[&str],
    names: &[Name],
    at: &JobStep<'_>,
) -> Result<bool, AllocError>
    ensures { IfOk result (λ is. is ≡ is_chosen (choice_view choice.entry) (map (λ p. p.now) parts.now) names.now (step_view at.now)) }
{
    if is_all(choice) || (choice.has_notes && is_note(at.step.step)) {
        return Ok(true);
    }
    let mut labels = Vec::new(alloc);
    push_labels(&mut labels, names, at)?;
    Ok(are_called(parts, labels.as_slice()))
}

/// Whether all lines are asked for.
fn is_all(choice: Choice<'_>) -> bool
    ensures { result ≡ is_all (choice_view choice.entry) }
{
    choice.only.is_none() && !choice.has_notes
}

/// Whether a step is a note.
fn is_note(step: &Step) -> bool
    ensures { result ≡ is_note step.now }
{
    matches!(step, Step::Note { .. })
}

/// The texts that name these steps.
fn labels_of(
    alloc: Global,
    names: &[Name],
    steps: &[JobStep<'_>],
) -> Result<Vec<String>, AllocError>
    ensures { IfOk result (λ texts. map string_bytes texts.items ≡ flat_map (labels names.now) (map step_view steps.now)) }
{
    let mut texts = Vec::new(alloc);
    for at in steps {
        push_labels(&mut texts, names, at)?;
    }
    Ok(texts)
}

/// Puts the texts that name a step behind others: its rank and its number, and where it has a name that, alone and behind its rank.
fn push_labels(texts: &mut Vec<String>, names: &[Name], at: &JobStep<'_>) -> Result<(), AllocError>
    ensures { OnOk result (map string_bytes texts.new.items ≡ map string_bytes texts.old.items ++ labels names.now (step_view at.now)) }
{
    let alloc = *texts.allocator();
    let rank = at.rank;
    let number = at.number;
    texts.push(format!(in alloc; "{rank}.{number}")?)?;
    push_named(texts, rank, name_at(names, rank, number))
}

/// Puts the texts that a name makes behind others, if there is one.
fn push_named(texts: &mut Vec<String>, rank: u8, name: Option<&str>) -> Result<(), AllocError>
    ensures { OnOk result (map string_bytes texts.new.items ≡ map string_bytes texts.old.items ++ named_labels rank (option_map (λ s. s.now) name.entry)) }
{
    let alloc = *texts.allocator();
    if let Some(name) = name {
        texts.push(String::from_str(alloc, name)?)?;
        push_unnumbered(texts, format!(in alloc; "{rank}.{name}")?)?;
    }
    Ok(())
}

/// Puts a text behind others, where it is no place by the number of a step: digits alone are a number.
fn push_unnumbered(texts: &mut Vec<String>, text: String) -> Result<(), AllocError>
    ensures { OnOk result (map string_bytes texts.new.items ≡ map string_bytes texts.old.items ++ unnumbered (string_bytes text)) }
{
    if Place::parse(text.as_str()).is_some() {
        return Ok(());
    }
    Ok(texts.push(text)?)
}

/// Whether one of these texts is one of the parts.
fn are_called(parts: &[&str], texts: &[String]) -> bool
    ensures { result ≡ are_called (map (λ p. p.now) parts.now) (map string_bytes texts.now) }
{
    some_called(parts, texts)
}

/// Whether one of these parts is one of the texts.
fn some_called(parts: &[&str], texts: &[String]) -> bool
    ensures { result ≡ list_any (λ part. is_called (map string_bytes texts.now) part.now) parts.now }
{
    parts.iter().any(|part| is_called(texts, *part))
}

/// Whether a part is one of these texts.
fn is_called(texts: &[String], part: &str) -> bool
    ensures { result ≡ is_called (map string_bytes texts.now) part.now }
{
    has_text(texts, part)
}

/// Whether one of these texts is a part.
fn has_text(texts: &[String], part: &str) -> bool
    ensures { result ≡ list_any (λ text. is_part part.now (string_bytes text)) texts.now }
{
    texts.iter().any(|text| is_part(part, text.as_str()))
}

/// Whether a part is this text, but for white space around it.
fn is_part(part: &str, text: &str) -> bool
    ensures { result ≡ is_part part.now text.now }
{
    part.trim() == text
}

/// The first of these parts that is none of these texts.
fn first_unknown<'a>(parts: &[&'a str], texts: &[String]) -> Option<&'a str>
    ensures { option_map (λ p. p.now) result ≡ find (λ part. not (is_called (map string_bytes texts.now) part)) (map (λ p. p.now) parts.now) }
{
    first_without(parts, texts)
}

/// The first of these parts that no text is.
fn first_without<'a>(parts: &[&'a str], texts: &[String]) -> Option<&'a str>
    ensures { option_map (λ p. p.now) result ≡ option_map (λ p. p.now) (find (λ part. not (is_called (map string_bytes texts.now) part.now)) parts.now) }
{
    let part = parts.iter().find(|part| !is_called(texts, **part))?;
    Some(*part)
}
