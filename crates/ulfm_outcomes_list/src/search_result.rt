//! What is told of a search for a schedule.
ghost use Rattle.std.specs.Prelude.{◌≡◌, ◌++◌, codes, OnOk, string_bytes};
ghost use Rattle.std.specs.Fmt.{decimal};
ghost use Rattle.ulfm_outcomes_list.specs.Told.{alone_in, at_json, at_words, more_at, place_json, rest_json, row_head, row_in, row_key, row_saying, row_words, schedule_at, schedule_key, told_at, told_in, told_json, told_words, unmet_in, unmet_json, unmet_words};

use crate::Unmet;
use crate::schedule_json::push_schedule_json;
use crate::schedule_words::push_schedule_in;
use std::alloc::AllocError;
use ulfm_forms::{Form, Wording};
use ulfm_job::Place;
use ulfm_reader::Reading;
use ulfm_schedule::Schedule;

/// What a search came to that may show a schedule.
#[derive(Drop)]
pub enum Told {
    /// A schedule.
    Schedule(Schedule),
    /// There are more states than this limit.
    Many(usize),
}

/// What was told of what was asked for, perhaps with the stops of a place, in this form.
pub fn push_told(
    text: &mut String,
    form: Form,
    at: Option<Place>,
    asked: &Reading,
    told: &Told,
) -> Result<(), AllocError>
    ensures { OnOk result (string_bytes text.new ≡ string_bytes text.old ++ told_in form at asked.now.names.items asked.now.job told.now) }
{
    match at {
        Some(place) => push_told_at(text, form, place, asked, told),
        None => push_alone(text, form, asked, told),
    }
}

/// What was told, alone.
fn push_alone(text: &mut String, form: Form, asked: &Reading, told: &Told) -> Result<(), AllocError>
    ensures { OnOk result (string_bytes text.new ≡ string_bytes text.old ++ alone_in form asked.now.names.items asked.now.job told.now) }
{
    match form {
        Form::Words(wording) => push_words(text, wording, asked, told),
        Form::Json => {
            text.push_str("{")?;
            push_rest(text, None, asked, told)
        }
    }
}

/// What was told at a place.
fn push_told_at(
    text: &mut String,
    form: Form,
    place: Place,
    asked: &Reading,
    told: &Told,
) -> Result<(), AllocError>
    ensures { OnOk result (string_bytes text.new ≡ string_bytes text.old ++ told_at form place asked.now.names.items asked.now.job told.now) }
{
    match told {
        Told::Many(limit) => push_more_at(text, form, *limit, place),
        Told::Schedule(_) => push_schedule_at(text, form, place, asked, told),
    }
}

/// A schedule at a place, below the line of the place.
fn push_schedule_at(
    text: &mut String,
    form: Form,
    place: Place,
    asked: &Reading,
    told: &Told,
) -> Result<(), AllocError>
    ensures { OnOk result (string_bytes text.new ≡ string_bytes text.old ++ schedule_at form place asked.now.names.items asked.now.job told.now) }
{
    match form {
        Form::Words(wording) => {
            write!(text, "at {place}\n")?;
            push_words(text, wording, asked, told)
        }
        Form::Json => {
            text.push_str("{")?;
            push_rest(text, Some(place), asked, told)
        }
    }
}

/// The line that there are more states than the limit at a place.
pub fn push_more_at(
    text: &mut String,
    form: Form,
    limit: usize,
    place: Place,
) -> Result<(), AllocError>
    ensures { OnOk result (string_bytes text.new ≡ string_bytes text.old ++ more_at form limit place) }
{
    match form {
        Form::Words(_) => write!(text, "more than {limit} states at {place}\n"),
        Form::Json => write!(
            text,
            "{{\"more_states_than\":{limit},\"at\":\"{place}\"}}\n"
        ),
    }
}

/// That a step isn't answered as it expects, perhaps at a place, and what was told of it.
pub fn push_unmet(
    text: &mut String,
    form: Form,
    at: Option<Place>,
    asked: &Reading,
    unmet: Unmet,
    told: &Told,
) -> Result<(), AllocError>
    ensures { OnOk result (string_bytes text.new ≡ string_bytes text.old ++ unmet_in form at asked.now.names.items asked.now.job unmet told.now) }
{
    match form {
        Form::Words(wording) => {
            push_unmet_words(text, at, unmet)?;
            push_words(text, wording, asked, told)
        }
        Form::Json => {
            push_unmet_json(text, unmet)?;
            push_rest(text, at, asked, told)
        }
    }
}

/// That a step isn't answered as it expects, in words.
fn push_unmet_words(text: &mut String, at: Option<Place>, unmet: Unmet) -> Result<(), AllocError>
    ensures { OnOk result (string_bytes text.new ≡ string_bytes text.old ++ unmet_words at unmet) }
{
    let rank = unmet.rank;
    let step = unmet.step;
    write!(text, "not as expected: {rank}.{step}")?;
    push_at_words(text, at)
}

/// That a step isn't answered as it expects, as the first key of an object.
fn push_unmet_json(text: &mut String, unmet: Unmet) -> Result<(), AllocError>
    ensures { OnOk result (string_bytes text.new ≡ string_bytes text.old ++ unmet_json unmet) }
{
    text.push_str("{\"not_as_expected\":")?;
    push_place(text, unmet)
}

/// The step, as an object, and a comma.
fn push_place(text: &mut String, unmet: Unmet) -> Result<(), AllocError>
    ensures { OnOk result (string_bytes text.new ≡ string_bytes text.old ++ place_json unmet) }
{
    let rank = unmet.rank;
    let step = unmet.step;
    write!(text, "{{\"rank\":{rank},\"step\":{step}")?;
    text.push_str("},")
}

/// A row of `never` by its number, whose answers all come together or may, perhaps at a place, and what was told of it.
pub fn push_row(
    text: &mut String,
    form: Form,
    at: Option<Place>,
    asked: &Reading,
    number: usize,
    told: &Told,
) -> Result<(), AllocError>
    ensures { OnOk result (string_bytes text.new ≡ string_bytes text.old ++ row_in form at asked.now.names.items asked.now.job number told.now) }
{
    match form {
        Form::Words(wording) => {
            push_row_words(text, at, number, told)?;
            push_words(text, wording, asked, told)
        }
        Form::Json => {
            push_row_key(text, number, told)?;
            push_rest(text, at, asked, told)
        }
    }
}

/// The line of a row by its number, in words.
fn push_row_words(
    text: &mut String,
    at: Option<Place>,
    number: usize,
    told: &Told,
) -> Result<(), AllocError>
    ensures { OnOk result (string_bytes text.new ≡ string_bytes text.old ++ row_words at number told.now) }
{
    push_row_head(text, number, told)?;
    push_at_words(text, at)?;
    Ok(())
}

/// What is said of a row: that all its answers come together, or that it isn't known whether they do.
fn row_saying(told: &Told) -> &'static str
    ensures { result.now ≡ row_saying told.now }
{
    match told {
        Told::Schedule(_) => "come together: never[",
        Told::Many(_) => "not known: never[",
    }
}

/// The beginning of a line: what is said of a row by its number.
fn push_row_head(text: &mut String, number: usize, told: &Told) -> Result<(), AllocError>
    ensures { OnOk result (string_bytes text.new ≡ string_bytes text.old ++ row_head number told.now) }
{
    let saying = row_saying(told);
    write!(text, "{saying}{number}]")
}

/// The key of a row's number, as the first of an object.
fn row_key(told: &Told) -> &'static str
    ensures { result.now ≡ row_key told.now }
{
    match told {
        Told::Schedule(_) => "{\"never\":",
        Told::Many(_) => "{\"not_known\":",
    }
}

/// That key, the number, and a comma.
fn push_row_key(text: &mut String, number: usize, told: &Told) -> Result<(), AllocError>
    ensures { OnOk result (string_bytes text.new ≡ string_bytes text.old ++ row_key told.now ++ decimal number ++ codes ",") }
{
    let key = row_key(told);
    write!(text, "{key}{number},")
}

/// The end of a line: a place, if there is one.
fn push_at_words(text: &mut String, at: Option<Place>) -> Result<(), AllocError>
    ensures { OnOk result (string_bytes text.new ≡ string_bytes text.old ++ at_words at) }
{
    match at {
        Some(place) => write!(text, " at {place}\n"),
        None => text.push_str("\n"),
    }
}

/// The key of a place, if there is one, and a comma.
fn push_at(text: &mut String, at: Option<Place>) -> Result<(), AllocError>
    ensures { OnOk result (string_bytes text.new ≡ string_bytes text.old ++ at_json at) }
{
    match at {
        Some(place) => write!(text, "\"at\":\"{place}\","),
        None => Ok(()),
    }
}

/// The rest of an object: the place, and what was told.
fn push_rest(
    text: &mut String,
    at: Option<Place>,
    asked: &Reading,
    told: &Told,
) -> Result<(), AllocError>
    ensures { OnOk result (string_bytes text.new ≡ string_bytes text.old ++ rest_json at asked.now.names.items asked.now.job told.now) }
{
    push_at(text, at)?;
    push_key(text, asked, told)?;
    text.push_str("}\n")
}

/// What was told, in these words.
fn push_words(
    text: &mut String,
    wording: Wording,
    asked: &Reading,
    told: &Told,
) -> Result<(), AllocError>
    ensures { OnOk result (string_bytes text.new ≡ string_bytes text.old ++ told_words wording asked.now.job told.now) }
{
    match told {
        Told::Schedule(schedule) => push_schedule_in(text, wording, &asked.job, schedule),
        Told::Many(limit) => write!(text, "more than {limit} states\n"),
    }
}

/// What was told, as the key of an object.
fn push_key(text: &mut String, asked: &Reading, told: &Told) -> Result<(), AllocError>
    ensures { OnOk result (string_bytes text.new ≡ string_bytes text.old ++ told_json asked.now.names.items asked.now.job told.now) }
{
    match told {
        Told::Schedule(schedule) => push_schedule_key(text, asked, schedule),
        Told::Many(limit) => write!(text, "\"more_states_than\":{limit}"),
    }
}

/// The key of a schedule.
fn push_schedule_key(
    text: &mut String,
    asked: &Reading,
    schedule: &Schedule,
) -> Result<(), AllocError>
    ensures { OnOk result (string_bytes text.new ≡ string_bytes text.old ++ schedule_key asked.now.names.items asked.now.job schedule.now) }
{
    text.push_str("\"schedule\":")?;
    push_schedule_json(text, asked, schedule)
}
